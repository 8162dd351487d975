//! BLIF texts: worked ones, and pieces.
use dom_base::OutOfMemory;
use plain_texts::Draws;
use std::alloc::Global;

/// A model with a card of each kind.
pub const WHOLE: &[u8] =
    b".model m # main\r\n.inputs a \\\n b\n.outputs f\n.names a b f\n1- 1\n-1 1\n.latch f q re NIL 2\n.subckt u x=a y==b\n.end\n";

pub const WORKED: &[&str] = &[
    "",
    " ",
    "\n",
    "\r",
    "\\",
    "# a\n#b\n\n# .model t",
    ".model t\0\n",
    ".model t\n.end\n\0",
    ".model t\n.inputs a\x0bb\n",
    ".model t\n.inputs a\rb\n",
    ".model t\n.inputs a\r\r\n",
    ".model t\n.inputs a\x7f\n",
    ".model m\n\n.inputs a\x01\n",
    ".model m\n.inputs a \\\nb\n.latch a\n",
    ".model m\n.latch a f\n11 1\n",
    ".model m\n.names a b f\n11 1\n00 0\n",
    ".model m\n.end\n.clock\n",
    ".model m\n.latch a f ah b 0\n",
    ".latch a b ah c\n",
    ".model t\n.names f\n0\n0\n1\n",
    ".model t\n.names f\n1\n.end\n1\n",
    ".model t\n.inputs a \\\nb \\\n\x01\n",
    ".model t\n.inputs a \\\nb\n\n\\\n.gate\n",
    ".model t # \\\n.gate\n",
    ".model t\n.names a f \\ # c\n1 1\n",
    ".model t\n.names a f\\# c\n1 1\n",
    ".model t\n.names a f\\\r\n1 1\n",
    ".model t\n.names a f\n1 1\n# c\n\n0 1\n.clock\n.model u\n.end\n.model t\n",
    ".model m\n.latch a f al b\n",
    ".model m\n.latch a f as b 3\n",
    ".model m\n.latch a f b 1\n",
    ".model m\n.latch a f b c 1\n",
    ".model m\n.latch a f fe NIL\n.latch A NIL re a 3\n.latch a f 0\n.latch a f 1\n",
    ".model m\n.subckt u a b=c\n",
    ".model m\n.subckt u a=b a=b= B==a\n.subckt a=b\n",
    ".model m\n.inputs a\\\\\nb\n.outputs A a\\b \\\n a\n",
    " \\\n\n# c \\\n\\\n",
    ".model m\n.names f\n.inputs a\n1\n",
    ".model m\n.names a f\n1 01\n",
    ".model m\n.names a b f\n1 1 1\n",
    ".model m\n.names a b A f F\n01-0 0\n---- 0\n1010 0\n",
];

/// Texts with a byte at each `?`.
pub const PATTERNS: &[&str] = &[
    "?.model m\n",
    ".model m?n\n.inputs a?b\n.outputs ?\n",
    ".model m\n.inputs a?\n.clock?\nb\n.end",
    ".model m\n?names f\n1\n",
    ".model m\n.names f\n?\n",
    ".model m\n.names a f\n? 1\n",
    ".model m\n.names a b f\n1? 0\n",
    ".model m\n.names a f\n1 ?\n",
    ".model m\n.latch a q ?\n.latch b r re ? ?\n",
    ".model m\n.subckt u a?b c=?\n",
    ".model m\n.end ?\n",
];

pub const LINES: &[&str] = &[
    ".model m",
    ".model m",
    ".model",
    ".model a b",
    ".Model m",
    ".inputs a b",
    ".outputs",
    ".names f",
    ".names a f",
    ".names a b a f",
    ".names",
    "1",
    "0",
    "1 1",
    "- 1",
    "0 0",
    "1-0 1",
    "11 1",
    "12 1",
    "1 -",
    "1 1 1",
    ".latch a q",
    ".latch a q 2",
    ".latch a q 4",
    ".latch a q re c",
    ".latch a q fe NIL 0",
    ".latch a q as c 1",
    ".latch a q al",
    ".latch a q re c 1 1",
    ".subckt u",
    ".subckt u a=b =c",
    ".subckt u a=b c==",
    ".subckt",
    ".clock c",
    ".end",
    ".end",
    ".end m",
    ".endx",
    ".exdc",
    ".",
    "a\x01",
    "# c \x01",
    "",
    " \t",
    "\\",
];

const CARDS: &[&str] = &[
    ".inputs a b",
    ".inputs a b",
    ".outputs f",
    ".inputs\n.outputs\tg \\\n h",
    ".names f\n1\n1",
    ".names f\n0 # c",
    ".names f",
    ".names a f\n1 1\n\n- 1",
    ".names a b f\n11\t0\n-0 0",
    ".names a a b f\n1\\\n 1\n",
    ".names a a b f\n1-0 \\\n1\n000 1",
    "  .latch a q",
    ".latch a q 3",
    ".latch a q 1",
    ".latch a q re c",
    ".latch a q fe NIL 2",
    ".latch \\\n\\\nq a \\\n0",
    ".subckt u",
    ".subckt u a=b c==",
    ".clock c #\\",
    ".end\n.model n",
    ".model n",
    "# c \\",
    "",
    ".names a f\n1 1\n0 0",
    ".names a f\n1 1\n11 1",
    ".latch a q ah c",
    "1",
    ".end",
];

pub const WORDS: &[&str] = &[
    ".model",
    ".model m\n",
    ".inputs",
    ".outputs",
    ".names",
    ".names",
    ".latch",
    ".latch",
    ".subckt",
    ".clock",
    ".end",
    ".end",
    ".gate",
    "a",
    "b",
    "NIL",
    "0",
    "1",
    "1",
    "-",
    "01",
    "re",
    "fe",
    "ah",
    "a=b",
    "=",
    "\\",
    "#",
    "\x01",
    "\u{e9}",
    "3",
];

pub const PARTS: &[&str] = &[
    " ", " ", " ", "\t", "\n", "\n", "\\\n", "\r\n", "", "\r", " #",
];

pub const ENDS: &[&str] = &[
    "\n", "\n", "\n", "\n", "\n", "\n", "\n", "\n", "\r\n", "\r\n", " \t\n", "\n\n", " # c\n",
    "#\r\n", "\\\n", " \\\n", "\\\r\n", "\\ \n", "\\#\n", "\r\r\n", "\x7f\n", " 1\n", " =\n", "",
];

/// Cards of a model.
pub fn framed(alloc: Global, draws: &mut Draws) -> Result<Vec<u8>, OutOfMemory> {
    let mut text = Vec::new(alloc);
    draws.append(&mut text, 1, &["", "# c", "\r"], &["\n"])?;
    draws.append(
        &mut text,
        1,
        &[".model m", "\t.model \\\na"],
        &["\n", "\r\n"],
    )?;
    let count = draws.below(7);
    let ends = ["\n", "\n", "\n", "\n", "\r\n", " \t\n", "#\n", "\\\n"];
    draws.append(&mut text, count, CARDS, &ends)?;
    draws.append(&mut text, 1, &[".end", ".end", "", "\\"], ENDS)?;
    Ok(text)
}

/// A table with so many inputs and a row, behind this line.
pub fn wide(alloc: Global, head: &str, width: u32) -> Result<Vec<u8>, OutOfMemory> {
    let mut text = Vec::from_slice(alloc, head.as_bytes())?;
    text.extend_from_slice(b"\n.names")?;
    for _ in 0..width {
        text.extend_from_slice(b" a")?;
    }
    text.extend_from_slice(b" f\n")?;
    for _ in 0..width {
        text.push(b'1')?;
    }
    text.extend_from_slice(b" 1\n")?;
    Ok(text)
}
