//! The words behind a command: plain words and options.

ghost use Rattle.std.specs.Prelude.{◌≡◌, ◌<◌, ◌≤◌, ◌++◌, ◌∷◌, [], true, false, length, map, OnOk, IfOk, IfSome};
ghost use Rattle.std.specs.Prelude.{MatchOption};
ghost use Rattle.std.specs.Option.{option_map};
ghost use Rattle.std.specs.String.{string_bytes};
ghost use Rattle.commands.specs.Reading.{is_dashed, is_among, is_distinct, names, name_of, value_of, given_value};
ghost use Rattle.commands.specs.Reading.{nothing, kind_of, read_words, no_options};
ghost use Rattle.commands.specs.inner.Progress.{plain_also, plain_behind, given_also, outcome};

use causes::NoMemory;
use std::alloc::Global;
use std::marker::Model;

/// The options of a command, with their dashes.
#[derive(Drop)]
pub struct Options<'a> {
    valued: &'a [&'a str],
    flags: &'a [&'a str],
}

impl<'a> Model for Options<'a> {
    ghost use Rattle.std.specs.Prelude.{map};
    ghost use Rattle.commands.specs.Reading.{Allowed};

    ghost Value = { Allowed };

    ghost view = { λ o. record {
      valued = map (λ w. w.now) o.valued.now;
      flags = map (λ w. w.now) o.flags.now;
    } };
}

impl<'a> Options<'a> {
    /// Those that take a value, and those that take none.
    pub fn new(valued: &'a [&'a str], flags: &'a [&'a str]) -> Self
        ensures valued { result.valued ≡ map (λ w. w.now) valued.now }
        ensures flags { result.flags ≡ map (λ w. w.now) flags.now }
    {
        Options { valued, flags }
    }

    /// No option at all.
    pub fn none() -> Options<'static>
        ensures { result ≡ no_options }
    {
        Options {
            valued: &[],
            flags: &[],
        }
    }
}

/// Plain words and options with their values, in the order of the words. A flag has an empty value.
#[derive(Drop)]
pub struct Reading<'a> {
    plain: Vec<&'a str>,
    given: Vec<(&'a str, &'a str)>,
}

impl<'a> Model for Reading<'a> {
    ghost use Rattle.std.specs.Prelude.{map};
    ghost use Rattle.commands.specs.Reading.{Read};

    ghost Value = { Read };

    ghost view = { λ r. record {
      plain = map (λ w. w.now) r.plain.items;
      given = map (λ g. (g.0.now, g.1.now)) r.given.items;
    } };
}

/// What a word is, where it is no value and no `--` stands before it.
#[derive(Clone, Copy)]
pub enum Kind {
    /// `--`, behind which every word is plain.
    End,
    Plain,
    /// An option that takes no value.
    Flag,
    /// `--x`, whose value is the next word.
    Valued,
    /// `--x=v`
    Joined,
    Refused,
}

/// Whether a word is longer than one byte and begins with a dash.
fn is_dashed(word: &str) -> bool
    ensures { result ≡ is_dashed word.now }
{
    match word.as_bytes() {
        [b'-', rest @ ..] => !rest.is_empty(),
        _ => false,
    }
}

fn is_among(words: &[&str], word: &str) -> bool
    ensures { result ≡ is_among (map (λ w. w.now) words.now) word.now }
{
    words.iter().any(|w| *w == word)
}

/// The name and the value of `--x=v`. A word without `=` is a name with an empty value.
#[tactic(auto, using(crate::proofs::PartsLaws::parts_here, crate::proofs::PartsLaws::no_parts))]
fn parts(word: &str) -> (&str, &str)
    ensures name { result.0.now ≡ name_of word.now }
    ensures value { result.1.now ≡ value_of word.now }
{
    match word.split_once('=') {
        Some(parts) => parts,
        None => (word, ""),
    }
}

#[tactic(auto, unfolding(crate::specs::Reading::kind_of))]
fn kind_of(options: &Options<'_>, word: &str) -> Kind
    ensures { result ≡ kind_of options.now word.now }
{
    if word == "--" {
        return Kind::End;
    }
    if !is_dashed(word) {
        return Kind::Plain;
    }
    if is_among(options.flags, word) {
        return Kind::Flag;
    }
    if is_among(options.valued, word) {
        return Kind::Valued;
    }
    let (name, _value) = parts(word);
    if is_among(options.valued, name) {
        return Kind::Joined;
    }
    Kind::Refused
}

fn push_words<'a>(plain: &mut Vec<&'a str>, words: &'a [String]) -> Result<(), NoMemory>
    ensures { OnOk result (map (λ w. w.now) plain.new.items
        ≡ map (λ w. w.now) plain.old.items ++ map string_bytes words.now) }
{
    for word in words {
        plain.push(word.as_str())?;
    }
    Ok(())
}

impl<'a> Reading<'a> {
    /// No word, which takes no memory.
    pub fn new(alloc: Global) -> Self
        ensures { result ≡ nothing }
    {
        Reading {
            plain: Vec::new(alloc),
            given: Vec::new(alloc),
        }
    }

    /// The plain words in order.
    pub fn plain(&self) -> &[&'a str]
        ensures { map (λ w. w.now) result.now ≡ self.now.plain }
    {
        self.plain.as_slice()
    }

    /// The options with their values, in order.
    pub fn given(&self) -> &[(&'a str, &'a str)]
        ensures { map (λ g. (g.0.now, g.1.now)) result.now ≡ self.now.given }
    {
        self.given.as_slice()
    }

    /// The value of the option of this name, with its dashes, or None where it is not given.
    pub fn value(&self, name: &str) -> Option<&'a str>
        ensures { option_map (λ v. v.now) result ≡ given_value name.now self.now }
    {
        match self.given.iter().find(|g| g.0 == name) {
            Some(g) => Some(g.1),
            None => None,
        }
    }

    fn push_plain(&mut self, word: &'a str) -> Result<(), NoMemory>
        ensures { OnOk result (self.new ≡ plain_also word.now self.old) }
    {
        match self.plain.push(word) {
            Ok(()) => Ok(()),
            Err(_) => Err(NoMemory),
        }
    }

    fn push_plain_words(&mut self, words: &'a [String]) -> Result<(), NoMemory>
        ensures { OnOk result (self.new ≡ plain_behind (map string_bytes words.now) self.old) }
    {
        push_words(&mut self.plain, words)
    }

    /// Whether an option of this name is given.
    fn has(&self, name: &str) -> bool
        ensures { result ≡ is_among (names self.now) name.now }
    {
        self.given.iter().any(|g| g.0 == name)
    }

    fn push_option(&mut self, name: &'a str, value: &'a str) -> Result<(), NoMemory>
        ensures { OnOk result (self.new ≡ given_also name.now value.now self.old) }
    {
        match self.given.push((name, value)) {
            Ok(()) => Ok(()),
            Err(_) => Err(NoMemory),
        }
    }
}

/// The first word and those behind it.
fn split_first_word(words: &[String]) -> Option<(&str, &[String])>
    ensures words { MatchOption result (map string_bytes words.now ≡ [])
        (λ p. map string_bytes words.now ≡ p.0.now ∷ map string_bytes p.1.now) }
    ensures shorter { IfSome result (λ p. length p.1.now < length words.now) }
{
    let (word, behind) = words.split_first()?;
    Some((word.as_str(), behind))
}

/// Adds an option and gives the words behind it, or None where it stands there already.
#[tactic(auto, using(crate::proofs::ReadingLaws::names_more, crate::proofs::DistinctLaws::distinct_more))]
fn give_option<'a>(
    reading: &mut Reading<'a>,
    name: &'a str,
    value: &'a str,
    left: &'a [String],
) -> Result<Option<&'a [String]>, NoMemory>
    requires { is_distinct (names reading.old) ≡ true }
    ensures answer { IfOk result (λ o. MatchOption o (is_among (names reading.old) name.now ≡ true)
        (λ l. (l.now ≡ left.now) × (reading.new ≡ given_also name.now value.now reading.old)
        × (is_distinct (names reading.new) ≡ true))) }
{
    if reading.has(name) {
        return Ok(None);
    }
    reading.push_option(name, value)?;
    Ok(Some(left))
}

/// Reads the first word, with its value where the value is a word of its own, and gives the words
/// that are left, or None where the first word is refused.
fn read_word<'a>(
    reading: &mut Reading<'a>,
    options: &Options<'_>,
    word: &'a str,
    behind: &'a [String],
) -> Result<Option<&'a [String]>, NoMemory>
    requires { is_distinct (names reading.old) ≡ true }
    ensures answer { IfOk result (λ o. MatchOption o
        (outcome options.now reading.old (word.now ∷ map string_bytes behind.now) ≡ None)
        (λ l. (outcome options.now reading.new (map string_bytes l.now)
        ≡ outcome options.now reading.old (word.now ∷ map string_bytes behind.now))
        × (is_distinct (names reading.new) ≡ true))) }
    ensures shorter { IfOk result (λ o. IfSome o (λ l. length l.now ≤ length behind.now)) }
{
    match kind_of(options, word) {
        Kind::End => {
            reading.push_plain_words(behind)?;
            Ok(Some(&[]))
        }
        Kind::Plain => {
            reading.push_plain(word)?;
            Ok(Some(behind))
        }
        Kind::Flag => give_option(reading, word, "", behind),
        Kind::Valued => match split_first_word(behind) {
            None => Ok(None),
            Some((value, rest)) => {
                if is_dashed(value) {
                    return Ok(None);
                }
                give_option(reading, word, value, rest)
            }
        },
        Kind::Joined => {
            let (name, value) = parts(word);
            give_option(reading, name, value, behind)
        }
        Kind::Refused => Ok(None),
    }
}

/// The words behind a command, or None where they are outside the rules: before the first `--`,
/// which is dropped, a longer word that begins with `-` is an option of the command. `--x=v` gives
/// a value, and so does the word behind `--x`, which begins with `-` only if it is `-` alone. Each
/// option stands at most once.
pub fn read_words<'a>(
    alloc: Global,
    words: &'a [String],
    options: &Options<'_>,
) -> Result<Option<Reading<'a>>, NoMemory>
    ensures { IfOk result (λ o. o ≡ read_words options.now (map string_bytes words.now)) }
{
    let mut reading = Reading::new(alloc);
    let mut left = words;
    while let Some((word, behind)) = split_first_word(left) {
        match read_word(&mut reading, options, word, behind)? {
            None => return Ok(None),
            Some(rest) => left = rest,
        }
    }
    Ok(Some(reading))
}
