// Inner. Reading an identifier: where its parts end, or the first refusal of numbers 1 to 7, 15 and 16, in one walk
// over its subtags.
#![tactic(auto)]

mod marks;
pub mod report;
pub mod spans;
pub mod steps;
pub mod word;

ghost use Rattle.std.specs.Prelude.{◌≡◌, not, ◌+◌, ◌≤◌, ◌<◌, length};
ghost use Rattle.std.proofs.Math.Option.{none};
ghost use Rattle.standard.specs.Reading.{split, clean, unclean, bad_tag, wrong_size};
ghost use Rattle.reader.specs.Parts.{found_as, fault_is, outcome_of, outcome};
ghost use Rattle.reader.specs.Walk.{cut as cut_at, first_cut, cut_stage, unread as nothingRead};
ghost use Rattle.reader.specs.Steps.{misplaced_from, ended, steps_of};

use steps::{Stage, State, Verdict};
use subtag::Class;

// What the first subtag is.
#[derive(Clone, Copy, PartialEq, Eq)]
pub enum Start {
    Language,
    Script,
    Root,
}

// Where the parts end, and the counts. A part begins where the one before it ends, with its separator in front;
// private use is what stands behind the extensions.
#[derive(Clone, Copy)]
pub struct Parts {
    pub start: Start,
    pub language: usize,
    pub script: usize,
    pub region: usize,
    pub variants: usize,
    pub extensions: usize,
    pub variant_count: usize,
    pub extension_count: usize,
}

// Why reading refuses, with the place where that has one.
#[derive(Clone, Copy, PartialEq, Eq)]
pub enum Refusal {
    Empty,
    TooLong,
    BadByte(usize),
    BadSize(usize),
    MisplacedFirst(usize),
    MisplacedLater(usize),
    MisplacedExtension(usize),
    Repeated(usize),
    Unfinished(usize),
}

// Number and place as documents 01 and 02 give them.
#[derive(Clone, Copy)]
pub struct Fault {
    pub number: u8,
    pub place: usize,
}

// The number and place of a refusal: no refusal has number 0.
pub fn fault_of(r: Refusal) -> Fault
    ensures { (result.number ≡ (fault_is r).number) × (result.place ≡ (fault_is r).place) × (0 < result.number) }
{
    let (number, place) = match r {
        Refusal::Empty => (1, 0),
        Refusal::TooLong => (2, 0),
        Refusal::BadByte(place) => (3, place),
        Refusal::BadSize(place) => (4, place),
        Refusal::MisplacedFirst(place) => (5, place),
        Refusal::MisplacedLater(place) => (15, place),
        Refusal::MisplacedExtension(place) => (16, place),
        Refusal::Repeated(place) => (6, place),
        Refusal::Unfinished(place) => (7, place),
    };
    Fault { number, place }
}

impl Refusal {
    // Number, place and table as documents 01 and 02 give them: no table is at fault.
    pub fn number(self) -> u8
        ensures { result ≡ (fault_is self).number }
    {
        fault_of(self).number
    }

    pub fn place(self) -> usize
        ensures { result ≡ (fault_is self).place }
    {
        fault_of(self).place
    }

    pub fn table(self) -> u8
        ensures { result ≡ 0 }
    {
        0
    }
}

// Nothing is read yet: a script first leaves the language empty.
#[tactic(auto, unfolding(crate::specs::Walk::unread))]
fn unread() -> Parts
    ensures { result ≡ nothingRead }
{
    Parts {
        start: Start::Script,
        language: 0,
        script: 0,
        region: 0,
        variants: 0,
        extensions: 0,
        variant_count: 0,
        extension_count: 0,
    }
}

// The parts after a first subtag that is no script.
fn first_cut(start: Start, end: usize, p: Parts) -> Parts
    ensures { result ≡ first_cut start end p }
{
    Parts {
        start,
        language: end,
        script: end,
        region: end,
        variants: end,
        extensions: end,
        ..p
    }
}

// The parts after a subtag of the language part.
#[tactic(auto, unfolding(crate::specs::Walk::cut_stage))]
fn cut_stage(s: Stage, end: usize, p: Parts) -> Parts
    requires { p.variant_count < 65536 }
    ensures { result ≡ cut_stage s end p }
{
    match s {
        Stage::Language => first_cut(Start::Language, end, p),
        Stage::Root => first_cut(Start::Root, end, p),
        Stage::Script => Parts {
            script: end,
            region: end,
            variants: end,
            extensions: end,
            ..p
        },
        Stage::Region => Parts {
            region: end,
            variants: end,
            extensions: end,
            ..p
        },
        Stage::Variant => Parts {
            variants: end,
            extensions: end,
            variant_count: p.variant_count + 1,
            ..p
        },
    }
}

// The parts after a subtag that led to the state and ended at `end`.
#[tactic(auto, unfolding(crate::specs::Walk::cut, crate::specs::Walk::extended))]
fn cut(st: State, end: usize, p: Parts) -> Parts
    requires { p.variant_count < 65536 }
    ensures { result ≡ cut_at st end p }
{
    match st {
        State::Main(s) => cut_stage(s, end, p),
        State::First | State::Private | State::Privates | State::Misplaced | State::Unfinished => p,
        State::Unicode
        | State::Keywords
        | State::Transform
        | State::Part(_)
        | State::Key
        | State::Field
        | State::Other
        | State::Others => Parts {
            extensions: end,
            ..p
        },
    }
}

// Why the subtag at the place can't stand there: as the first, as a later one before any singleton, or after one.
#[tactic(auto, unfolding(crate::specs::Steps::misplaced_from))]
fn misplaced(at: usize, set: u64) -> Refusal
    ensures { ((fault_is result).number ≡ misplaced_from set at) × ((fault_is result).place ≡ at) }
{
    if at == 0 {
        Refusal::MisplacedFirst(at)
    } else if set == 0 {
        // no singleton has its mark
        Refusal::MisplacedLater(at)
    } else {
        Refusal::MisplacedExtension(at)
    }
}

// After the last subtag, which began at `at`: one extension for each mark.
#[tactic(auto, unfolding(crate::specs::Parts::outcome_of, crate::specs::Steps::ended, crate::specs::Walk::counted))]
fn finish(st: State, p: Parts, set: u64, at: usize) -> Result<Parts, Refusal>
    ensures { outcome_of result ≡ ended st p set at }
{
    if steps::pending(st) {
        return Err(Refusal::Unfinished(at));
    }
    Ok(Parts {
        extension_count: set.count_ones() as usize,
        ..p
    })
}

// Room for the numbers of the variants, or of the keys.
fn no_keys() -> [u64; 256]
    ensures { length result ≡ 256 }
{
    [0u64; 256]
}

// The walk over the subtags.
fn walk(id: &[u8]) -> Result<Parts, Refusal>
    requires { length id.now ≤ 255 }
    ensures { outcome_of result ≡ steps_of id.now }
{
    // the variants of this language part, or the keys of `t`, so far: the first `count`, as there is no heap for a Vec
    let mut listed = no_keys();
    let mut count: usize = 0;
    let mut set: u64 = 0;
    let mut st = State::First;
    let mut parts = unread();
    let mut back: usize = 0;
    let mut at: usize = 0;
    // a step is as long as its subtag
    'walk: loop {
        let t = subtag::scan(&id[at..]);
        let next = steps::step(st, t);
        match steps::verdict_of(next) {
            Verdict::Misplaced => return Err(misplaced(at, set)),
            Verdict::Unfinished => return Err(Refusal::Unfinished(back)),
            Verdict::Singleton => {
                set = marks::add(set, t.first).ok_or(Refusal::Repeated(at))?;
                count = 0;
            }
            Verdict::Listed => {
                if listed[..count].contains(&t.key) {
                    return Err(Refusal::Repeated(at));
                }
                listed[count] = t.key;
                count += 1;
            }
            Verdict::Plain => {}
        }
        let len = t.len;
        parts = cut(next, at + len, parts);
        if id.len() - at <= len {
            return finish(next, parts, set, at);
        }
        st = next;
        back = at;
        at = at + len + 1;
    }
}

// Can the byte stand in no identifier?
fn foreign(b: u8) -> bool
    ensures { result ≡ not (clean b) }
{
    subtag::class_of(b) == Class::Other
}

// The first byte that is no letter, digit or separator.
fn foreign_byte(id: &[u8]) -> Option<usize>
    ensures { found_as 3 result ≡ unclean 0 id.now }
{
    id.iter().position(|&b| foreign(b))
}

// The first subtag of 0 or over 8 bytes.
fn wrong_size(id: &[u8]) -> Option<usize>
    ensures { found_as 4 result ≡ bad_tag 4 wrong_size 0 (split id.now) }
{
    let mut at: usize = 0;
    // a step is as long as its subtag
    loop {
        let len = subtag::scan(&id[at..]).len;
        if len == 0 || 8 < len {
            return Some(at);
        }
        if id.len() - at <= len {
            return None;
        }
        at = at + len + 1;
    }
}

// Reads an identifier: where its parts end, or the first refusal.
pub fn read_parts(id: &[u8]) -> Result<Parts, Refusal>
    ensures { outcome_of result ≡ outcome id.now }
{
    if id.is_empty() {
        return Err(Refusal::Empty);
    }
    if 255 < id.len() {
        return Err(Refusal::TooLong);
    }
    if let Some(at) = foreign_byte(id) {
        return Err(Refusal::BadByte(at));
    }
    if let Some(at) = wrong_size(id) {
        return Err(Refusal::BadSize(at));
    }
    walk(id)
}
