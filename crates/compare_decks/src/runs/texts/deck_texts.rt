//! Decks: worked ones, and pieces.
use dom_base::OutOfMemory;
use plain_texts::Draws;
use std::alloc::Global;

pub const WORKED: &[&str] = &[
    "",
    "\n",
    "\r",
    "+ x\n",
    "* x\n\n + \x01\n.subckt a\n",
    ".subckt a o_f vss vdd\nm d g s x nch\nm g d o_f x pch\n.ends\n",
    "* PHASE A +\r\n .SUBCKT Top\t\r\n* phase b -\n*phase c +\n\n * comment\n+ X y\r\nMx1 X\n* phase D +\n+Y\n\n+z vdd PKEEP l=1\n.ends top\n* phase e -",
    ".model nch x=1\n.subckt a\n.ends a\n.end b\n* phase c +\n+ \x01\n.subckt a\n",
    "* phase a + b\n* phase a *\n* phase a\x02 +\n.subckt a\n.ends",
    ".subckt a\n\nm a b c\n+ d nch \x01\n",
    ".subckt a\n.end \x01\n",
    ".subckt a\n.end\n\n",
    ".subckt a\n\n",
    "m a b c d nmos\n",
    ".subckt a\n.subckt b c c\n",
    ".subckt a b\n+ c\n+ B\n",
    ".subckt t vdd\nm0 a b c vss nch\n.ends\nm1 a b c vss nch\n",
    ".subckt t\n.ends\n.end\r\r\n",
    ".subckt t\n.ends\r\r\n",
    ".subckt a\n.ends\n.endx\n.end\n",
    ".subckt a\n.subckts\n.ends\n",
    ".subckt a\n.endss\n.ends\n",
    ".subckt a=b x\n.ends\n",
    ".subckt a\n.ends b\n.end",
    "** phase x +\n*x phase y -\n* phases z +\n* phase\n.subckt a\n.ends\n",
    ".subckt c a y\nm a b y y nch\n.ends\n.subckt t q x1.b\nx1 q z c\n.ends\n",
    ".subckt e a\n.ends\n.subckt c a\nm a n a a pch\n.ends\n.subckt t\nx0 q e\nX1 r C\nx2 s c\n.ends\n",
    ".subckt a\n\t * PHASE\tA  -\r\n* phase b\n+ +\n.ends x=y\n.model\n.end z=",
];

/// Decks with a byte at each `?`.
pub const PATTERNS: &[&str] = &[
    "?.subckt a\n.ends\n",
    ".subckt a?b c?\n+?d\n.ends\n",
    ".subckt a\n?m x y z w nch\n.ends\n",
    ".subckt a\nm x?y z w nch\n+?.ends\n.ends\n",
    ".subckt a\n.ends ?\n.end?\n",
    "*?phase a -\n* phase b? +\n* phase c ?\n.subckt a\n.ends\n",
];

pub const LINES: &[&str] = &[
    ".subckt a vdd vss",
    ".SUBCKT B x Y",
    ".subckt c x y x",
    ".subckt d x=1 y",
    ".subckt",
    "m1 a b c d nch",
    "M2 x B Y vss PCH w=1",
    "m3 vdd vss a b pkeep",
    "m4 a b c d npn",
    "m5 a b",
    "m",
    ".ends",
    ".ends a",
    ".ends a b",
    ".end",
    ".END x",
    ".endsx",
    ".model n p=1",
    ".include q",
    "x1 a b",
    "1 1",
    "* phase o_f +",
    "*  PHASE Q\t-",
    "*phase a -",
    "* phase x\x01 +",
    "* phase x + y",
    "*",
    "+",
    "+ b",
    "+nch",
    "+ c d nch",
    "+ =",
    "+ \x01",
    "+ .end",
    "",
    "",
    " \t",
];

const DEVICES: &[&str] = &[
    "m0 b a b a pkeep 1 2",
    "m1 e f g x pch",
    "m2 B vdd A \\ NCH",
    "Model a b # c pch",
    "m1 a b c d nch",
    "m1 a b c d nch",
    "m1 a b c d nch",
    "m1 a b c d nch",
    " M2 x B Y vss PCH w=1",
    "\tm3 vdd vss a b pkeep",
    "m4 y\n+ x a\n* phase z -\n+ vss nch",
    "m5 c c c\n\n+c pkeep",
    "* phase o_g +",
    ".model m5 n",
    "* m5",
    "",
    "m4 a b c d npn",
    "m5 a b c d",
    "m6 a b\x7f c d nch",
    ".ends",
];

const HEADS: &[&str] = &[
    ".subckt a vdd vss",
    ".subckt a c b a",
    ".subckt A#\\ c\n\n* x\n\t+\td",
    ".subckt a vdd vss",
    ".subckt a vdd vss",
    ".Subckt B x Y",
    "* a title\n.subckt c x\n+ y x1",
    ".subckt d",
    ".subckt d y Y",
    ".subckt f\n+ x\n+ y = z",
    "+ x",
    ".model .subckt\n.subckt e b c a",
];

const TAILS: &[&str] = &[
    ".ends",
    ".ends",
    ".ends",
    ".ends\n* phase y -\n.end\n* phase z +\n.x",
    ".ends",
    ".ends",
    ".ENDS a",
    ".ends\n.end",
    ".ends\n.end\n.subckt b",
    ".ends a\n+ b",
    ".end",
    ".ends\n.subckt b\n.ends",
    "",
];

pub const WORDS: &[&str] = &[
    ".subckt",
    ".subckt",
    "a",
    "b",
    "vdd",
    "A",
    "m1",
    "M",
    "nch",
    "pch",
    "pkeep",
    ".ends",
    ".ends",
    ".end",
    ".model",
    "*",
    "* phase a +",
    "+",
    "-",
    "=",
    "\x01",
    "\\",
    "#",
    "\u{e9}",
];

pub const PARTS: &[&str] = &[" ", " ", " ", "\t", "\n", "\n", "\n+", "\r\n", "", "\r"];

pub const ENDS: &[&str] = &[
    "\n", "\n", "\n", "\n", "\n", "\n", "\n", "\n", "\r\n", "\r\n", " \t\n", "\n\n", "\n* c\n",
    "\r\r\n", " \x7f\n", " x\n", "\n ", "=\n", "",
];

/// Devices between `.subckt` and `.ends`.
pub fn framed(alloc: Global, draws: &mut Draws) -> Result<Vec<u8>, OutOfMemory> {
    let mut text = Vec::new(alloc);
    draws.append(&mut text, 1, HEADS, &["\n", "\r\n"])?;
    let count = draws.below(5);
    draws.append(&mut text, count, DEVICES, &["\n", "\n", "\r\n", " x\n"])?;
    draws.append(&mut text, 1, TAILS, &["\n", "\n", "\r\n", "\n.x\n", ""])?;
    Ok(text)
}

/// How a subcircuit is opened, and what may stand in it.
type Level = (&'static [&'static str], &'static [&'static str]);

/// Subcircuits that call those before them, with ports that have the names of inner nets of calls.
const LEVELS: &[Level] = &[
    (
        &[
            ".subckt u a b",
            ".subckt u a b",
            ".subckt u a x1.n",
            ".SUBCKT U a\n+ b",
        ],
        &[
            "m1 a n b vss nch",
            "m1 a n b vss nch",
            "m2 x1.n a n vdd pch",
            "m3 n b vdd vdd pkeep",
            "* a b",
            "m4 a a a a nch",
        ],
    ),
    (
        &[
            ".subckt v a b",
            ".subckt v x1.n b",
            ".subckt V x2.x1.n a",
            ".subckt v n b",
        ],
        &[
            "x1 a n u",
            "X2 n a U",
            "x1 b x1.n u",
            "x2 a b u",
            "x n\n+ n u",
            "m1 x1.n n b vss nch",
            "m3 x2.n x1.b vdd vdd pkeep",
        ],
    ),
    (
        &[
            ".subckt w a b",
            ".subckt w x1.x1.n x1.n",
            ".subckt w a vdd",
            ".subckt w x2.n x1.x1.n",
        ],
        &[
            "x1 a n u",
            "x1 a n v",
            "x2 n x1.n v",
            "X2 x1.n b V",
            "x1 b b v",
            "m1 x1.x1.n n x2.n vss nch",
            "m2 vdd x2.x1.n x1.n.n vdd pch",
        ],
    ),
    (
        &[
            ".subckt t",
            ".subckt t x1.n x2.x1.x1.n",
            ".subckt t vdd vss n",
            ".subckt x1 a",
        ],
        &[
            "x1 a n w",
            "x2 n x1.n w",
            "x1 x2.n x2.x1.n u",
            "x1.x2 vdd vss v",
            "x1 n vdd w",
            "m1 x1.x1.n a x1.x1.x1.n vss nch",
        ],
    ),
];

/// What may not stand in a subcircuit, in most places.
const WRONG: &[&str] = &[
    "x3 u",
    "x4 v",
    "x5 a u",
    "x6 a b z",
    "x n n t",
    "x1 a=b u",
    "x",
    "y1 a",
    "+ a",
    "+ u",
    ".subckt q",
    ".ends",
    ".subckt u a b",
    ".ends\n.subckt V\n.ends\n.subckt q",
    "m9 a b c d npn",
    "m9 a b c",
    "x1 a b w",
    ".end",
    ".subckt q a b a",
];

const CLOSINGS: &[&str] = &[
    ".ends",
    ".ends",
    ".ends",
    ".ends u",
    ".ends\n.model x",
    "* c\n.ends",
];

/// Subcircuits that call one another. In half of the texts something stands in one of them that may not.
pub fn nested(alloc: Global, draws: &mut Draws) -> Result<Vec<u8>, OutOfMemory> {
    let mut text = Vec::new(alloc);
    let wrong = draws.below(8);
    for (place, (heads, parts)) in LEVELS.iter().enumerate() {
        draws.append(&mut text, 1, heads, &["\n"])?;
        let count = draws.below(5);
        draws.append(&mut text, count, parts, &["\n", "\n", "\r\n"])?;
        if place == wrong {
            draws.append(&mut text, 1, WRONG, &["\n"])?;
        }
        draws.append(&mut text, 1, CLOSINGS, &["\n"])?;
    }
    Ok(text)
}

const BYTES: &[&str] = &[
    " ", "x", "u", "a", ".", "n", "\n", "\n", "+", "m", "=", "*", "b", "v", "\t", "1", "\x01",
];

/// Puts another byte in the place of one of a text.
pub fn change(draws: &mut Draws, text: &mut [u8]) {
    let place = draws.below(text.len());
    let other = draws.pick(BYTES).as_bytes().first().copied();
    if let Some(byte) = text.get_mut(place) {
        *byte = other.unwrap_or(b' ');
    }
}
