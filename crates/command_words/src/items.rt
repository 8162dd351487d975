//! What is written behind the name of a command: plain words, and options with their values.
ghost use Rattle.std.specs.Prelude.{◌≡◌, ◌<◌, ◌≤◌, [], ◌∷◌, IfSome, MatchOption, length, map};
ghost use Rattle.std.specs.String.{string_bytes};
ghost use Rattle.std.specs.List.{list_all, list_any};
ghost use Rattle.command_words.specs.Items.{AreSeveral, IsFirstWanted, IsNotOne, IsNotThree, IsNotTwo, IsOnly, all_wanted, seen, wanted_in};
ghost use Rattle.command_words.specs.Written.{is_dashed, is_same, plain_words, takes, with_value_of, written};

/// A plain word, which is a file or a number, an option without a value, or an option with its value.
#[derive(Clone, Copy)]
pub enum Item<'a> {
    Plain(&'a str),
    Flag(&'a str),
    Valued { name: &'a str, value: &'a str },
}

/// What is looked for: plain words, an option without a value, or the value of an option.
#[derive(Clone, Copy)]
pub enum Wanted<'a> {
    Plain,
    Flag(&'a str),
    Value(&'a str),
}

impl<'a> Item<'a> {
    /// What is wanted, where this item has it.
    fn wanted(self, wanted: Wanted<'_>) -> Option<&'a str>
        ensures { MatchOption result (wanted_in wanted.entry (seen self.entry) ≡ None)
            (λ found. wanted_in wanted.entry (seen self.entry) ≡ Some found.now) }
    {
        match (self, wanted) {
            (Item::Plain(word), Wanted::Plain) => Some(word),
            (Item::Flag(name), Wanted::Flag(other)) if is_same(name, other) => Some(name),
            (Item::Valued { name, value }, Wanted::Value(other)) if is_same(name, other) => {
                Some(value)
            }
            _ => None,
        }
    }

    /// Whether a command takes this item, by the names of its options with a value and of those without.
    fn is_taken(self, valued: &[&str], flags: &[&str]) -> bool
        ensures { result ≡ takes (map (λ n. n.now) valued.now) (map (λ n. n.now) flags.now) (seen self.entry) }
    {
        match self {
            Item::Plain(word) => !word.is_empty(),
            Item::Flag(name) => is_among(name, flags),
            Item::Valued { name, value } => is_among(name, valued) && !value.is_empty(),
        }
    }
}

/// Whether a word is one of these names.
fn is_among(word: &str, names: &[&str]) -> bool
    ensures { result ≡ list_any (is_same word.now) (map (λ n. n.now) names.now) }
{
    for name in names {
        if is_same(word, name) {
            return true;
        }
    }
    false
}

/// Whether a word is this name.
pub fn is_same(word: &str, name: &str) -> bool
    ensures { result ≡ is_same word.now name.now }
{
    word == name
}

/// Whether a word begins with `-`.
fn is_dashed(word: &str) -> bool
    ensures { result ≡ is_dashed word.now }
{
    word.starts_with('-')
}

/// What is written first, and the words behind it. The value of an option stands behind a `=` in its word, or is the
/// next word where that doesn't begin with `-`; what follows `--events`, `--exact`,
/// `--skew` or `--compound` is never its value.
fn first_item<'a>(words: &'a [String]) -> Option<(Item<'a>, &'a [String])>
    ensures first { MatchOption result (words.now ≡ [])
        (λ p. written (map string_bytes words.now) ≡ seen p.0 ∷ written (map string_bytes p.1.now)) }
    ensures fewer { IfSome result (λ p. length p.1.now < length words.now) }
{
    let [word, rest @ ..] = words else {
        return None
    };
    let word = word.as_str();
    if !is_dashed(word) {
        return Some((Item::Plain(word), rest));
    }
    if let Some((name, value)) = word.split_once('=') {
        return Some((Item::Valued { name, value }, rest));
    }
    if is_among(word, &["--events", "--exact", "--skew", "--compound"]) {
        return Some((Item::Flag(word), rest));
    }
    Some(with_value_of(word, rest))
}

/// An option with the next word as its value, or without one where that begins with `-`, and the words behind it.
fn with_value_of<'a>(name: &'a str, words: &'a [String]) -> (Item<'a>, &'a [String])
    ensures written { with_value_of name.now (written (map string_bytes words.now))
        ≡ seen result.0 ∷ written (map string_bytes result.1.now) }
    ensures fewer { length result.1.now ≤ length words.now }
{
    let [value, rest @ ..] = words else {
        return (Item::Flag(name), words)
    };
    let value = value.as_str();
    if is_dashed(value) {
        return (Item::Flag(name), words);
    }
    (Item::Valued { name, value }, rest)
}

/// Whether a command takes all that is written, by the names of its options with a value and of those without.
pub fn takes_all(words: &[String], valued: &[&str], flags: &[&str]) -> bool
    ensures { result
        ≡ list_all (takes (map (λ n. n.now) valued.now) (map (λ n. n.now) flags.now)) (written (map string_bytes words.now)) }
{
    let mut left = words;
    'items: while let Some((item, rest)) = first_item(left) {
        if !item.is_taken(valued, flags) {
            return false;
        }
        left = rest;
    }
    true
}

/// The first that is wanted, and the words behind it.
fn first_wanted<'a>(words: &'a [String], wanted: Wanted<'_>) -> Option<(&'a str, &'a [String])>
    ensures { MatchOption result (all_wanted wanted.entry (map string_bytes words.now) ≡ [])
        (λ p. IsFirstWanted wanted.entry (map string_bytes words.now) p.0.now (map string_bytes p.1.now)) }
{
    let mut left = words;
    'items: while let Some((item, rest)) = first_item(left) {
        if let Some(found) = item.wanted(wanted) {
            return Some((found, rest));
        }
        left = rest;
    }
    None
}

/// The one that is wanted, if there is one; nothing where there are several.
pub fn only_wanted<'a>(words: &'a [String], wanted: Wanted<'_>) -> Option<Option<&'a str>>
    ensures { MatchOption result (AreSeveral (all_wanted wanted.entry (map string_bytes words.now)))
        (λ found. IsOnly (all_wanted wanted.entry (map string_bytes words.now)) found) }
{
    let Some((found, rest)) = first_wanted(words, wanted) else {
        return Some(None)
    };
    match first_wanted(rest, wanted) {
        Some(_) => None,
        None => Some(Some(found)),
    }
}

/// The plain word, where there is exactly one.
pub fn one_plain<'a>(words: &'a [String]) -> Option<&'a str>
    ensures { MatchOption result (IsNotOne (plain_words (written (map string_bytes words.now))))
        (λ a. plain_words (written (map string_bytes words.now)) ≡ a.now ∷ []) }
{
    only_wanted(words, Wanted::Plain)?
}

/// The plain words, where there are exactly two.
pub fn two_plain<'a>(words: &'a [String]) -> Option<(&'a str, &'a str)>
    ensures { MatchOption result (IsNotTwo (plain_words (written (map string_bytes words.now))))
        (λ p. plain_words (written (map string_bytes words.now)) ≡ p.0.now ∷ p.1.now ∷ []) }
{
    let (first, rest) = first_wanted(words, Wanted::Plain)?;
    let second = one_plain(rest)?;
    Some((first, second))
}

/// The plain words, where there are exactly three.
pub fn three_plain<'a>(words: &'a [String]) -> Option<(&'a str, &'a str, &'a str)>
    ensures { MatchOption result (IsNotThree (plain_words (written (map string_bytes words.now))))
        (λ p. plain_words (written (map string_bytes words.now)) ≡ p.0.now ∷ p.1.now ∷ p.2.now ∷ []) }
{
    let (first, rest) = first_wanted(words, Wanted::Plain)?;
    let (second, third) = two_plain(rest)?;
    Some((first, second, third))
}
