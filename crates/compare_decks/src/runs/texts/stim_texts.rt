//! Stimuli: worked ones, and pieces.
use dom_base::OutOfMemory;
use plain_texts::Draws;
use std::alloc::Global;

pub const WORKED: &[&str] = &[
    "",
    "\n",
    "\r",
    "#",
    "\n\r\n \t\n# 11\n",
    " 1 0 # both",
    "11\r\n\n\t0\t1 \n10#\r\n",
    "11\n\n# 1x\n1\n1x\n",
    "x1100\n",
    "1\r0\n",
    "10\r\r\n",
    "10\r # both\n",
    "10\n1\0\n",
    "-\n\n - # none\n-",
    "-\n0\n",
    "--\n",
    "0-\n",
    "-x\n",
    "1\n",
    "111\n000\n",
    "1\r",
];

const LETTERS: &[&str] = &[
    "0", "1", "0", "1", "0", "1", "01", "10", "-", "-", "x", "#", "\r", " ", "\t", "\n", "\n",
    "\r\n", "\r\n", "\x01", "X",
];

const NONE: &[&str] = &["-", " - ", "-\t# 0", "", "-\r", "# -", "-#-", "- -", "0"];

const ONE: &[&str] = &["0", "1", "\t1 # 0", "", "0\r", "# 1", "1#0", "1 1", "-"];

const TWO: &[&str] = &[
    "01", "10", "\t1 1# 0", " ", "0\t0\r", "# 10", "11#0", "1", "1-",
];

const THREE: &[&str] = &[
    "010",
    "1 0 0",
    "\t1 1 1# 0",
    "\t",
    "011\r",
    "# 101",
    "110#0",
    "1 1",
    "1\r1",
];

/// Letters and what parts lines.
pub fn of_letters(alloc: Global, draws: &mut Draws) -> Result<Vec<u8>, OutOfMemory> {
    draws.text(alloc, 12, LETTERS, &[""])
}

/// Lines for one number of pins.
pub fn of_lines(alloc: Global, draws: &mut Draws) -> Result<Vec<u8>, OutOfMemory> {
    let lines = match draws.below(4) {
        0 => NONE,
        1 => ONE,
        2 => TWO,
        _ => THREE,
    };
    draws.text(alloc, 6, lines, &["\n", "\n", "\r\n", " \n"])
}
