// One step of reading: the state that a subtag leads to, by where the walk stands and what the subtag can be.
// Nothing else decides which subtag may follow which.
ghost use Rattle.std.specs.Prelude.{◌≡◌};
ghost use Rattle.reader.specs.Walk.{after_singleton, pending as pendingOf, stage_verdict, verdict_of};
ghost use Rattle.reader.specs.Steps.{kind_stage, accepts as acceptsAt, first_from, stage_from, part_from, keywords_from, transform_from, value_from, other_from, opens_from, next_from};

use subtag::{Kind, Subtag};

// The word `root`, as the number of a subtag.
const ROOT: u64 = 8245931986745556992;

// How far a language part has come.
#[derive(Clone, Copy)]
pub enum Stage {
    Language,
    Script,
    Region,
    Variant,
    Root,
}

// Where the walk stands after a subtag.
#[derive(Clone, Copy)]
pub enum State {
    // nothing read yet
    First,
    // in the language part
    Main(Stage),
    // after `u`, and in its attributes and keywords
    Unicode,
    Keywords,
    // after `t`, in its language part, after the key of a field, in its value
    Transform,
    Part(Stage),
    Key,
    Field,
    // after another singleton, and in its subtags
    Other,
    Others,
    // after `x`, and to the end
    Private,
    Privates,
    // the subtag cannot stand there; the one before it lacks what must follow
    Misplaced,
    Unfinished,
}

// What is to be done about the subtag that led to a state.
#[derive(Clone, Copy)]
pub enum Verdict {
    Misplaced,
    Unfinished,
    // held against the singletons before it
    Singleton,
    // held against the variants or the keys before it
    Listed,
    Plain,
}

// The stage that a subtag of the kind leads to.
fn stage_by(k: Kind) -> Stage
    ensures { result ≡ kind_stage k }
{
    match k {
        Kind::Script => Stage::Script,
        Kind::Region => Stage::Region,
        Kind::Variant => Stage::Variant,
        Kind::Neither => Stage::Language,
    }
}

// Script, region and variants, in this order; after `root` none of them.
fn accepts(s: Stage, k: Kind) -> bool
    ensures { result ≡ acceptsAt s k }
{
    matches!(
        (s, k),
        (Stage::Language, Kind::Script | Kind::Region | Kind::Variant)
            | (Stage::Script, Kind::Region | Kind::Variant)
            | (Stage::Region | Stage::Variant, Kind::Variant)
    )
}

// The first subtag: a language, `root`, or a script.
#[tactic(auto, unfolding(crate::specs::Steps::first_from, crate::specs::Steps::script_first))]
fn first_state(t: Subtag) -> State
    ensures { result ≡ first_from t }
{
    if subtag::is_language(t) {
        State::Main(Stage::Language)
    } else if t.key == ROOT {
        State::Main(Stage::Root)
    } else if subtag::kind_of(t) == Kind::Script {
        State::Main(Stage::Script)
    } else {
        State::Misplaced
    }
}

// A later subtag of the identifier's language part.
#[tactic(auto, unfolding(crate::specs::Steps::stage_from))]
fn main_state(s: Stage, t: Subtag) -> State
    ensures { result ≡ stage_from State.Main s t }
{
    let k = subtag::kind_of(t);
    if accepts(s, k) {
        State::Main(stage_by(k))
    } else {
        State::Misplaced
    }
}

// A later subtag of the language part of `t`, or the key of its first field.
#[tactic(auto, unfolding(crate::specs::Steps::part_from, crate::specs::Steps::stage_from))]
fn part_state(s: Stage, t: Subtag) -> State
    ensures { result ≡ part_from s t }
{
    if subtag::is_field_key(t) {
        return State::Key;
    }
    let k = subtag::kind_of(t);
    if accepts(s, k) {
        State::Part(stage_by(k))
    } else {
        State::Misplaced
    }
}

// In `u` two bytes are the key of a keyword.
#[tactic(auto, unfolding(crate::specs::Steps::keywords_from))]
fn keyword_state(t: Subtag) -> State
    ensures { result ≡ keywords_from t }
{
    if t.len == 2 && !subtag::is_keyword_key(t) {
        State::Misplaced
    } else {
        State::Keywords
    }
}

// Straight after `t`: a field, or a language.
#[tactic(auto, unfolding(crate::specs::Steps::transform_from))]
fn transform_state(t: Subtag) -> State
    ensures { result ≡ transform_from t }
{
    if subtag::is_field_key(t) {
        State::Key
    } else if subtag::is_language(t) {
        State::Part(Stage::Language)
    } else {
        State::Misplaced
    }
}

// In a field two bytes are the next key, which leads to `key`.
#[tactic(auto, unfolding(crate::specs::Steps::value_from))]
fn value_state(key: State, t: Subtag) -> State
    ensures { result ≡ value_from key t }
{
    if subtag::is_field_key(t) {
        key
    } else if t.len == 2 {
        State::Misplaced
    } else {
        State::Field
    }
}

// A subtag that is no singleton.
#[tactic(auto, unfolding(crate::specs::Steps::other_from))]
fn other_state(st: State, t: Subtag) -> State
    ensures { result ≡ other_from st t }
{
    match st {
        State::First => first_state(t),
        State::Main(s) => main_state(s, t),
        State::Unicode | State::Keywords => keyword_state(t),
        State::Transform => transform_state(t),
        State::Part(s) => part_state(s, t),
        State::Key => value_state(State::Unfinished, t),
        State::Field => value_state(State::Key, t),
        State::Other | State::Others => State::Others,
        State::Private | State::Privates => State::Privates,
        State::Misplaced => State::Misplaced,
        State::Unfinished => State::Unfinished,
    }
}

// What a singleton begins.
#[tactic(auto, unfolding(crate::specs::Steps::opens_from))]
fn opens(first: u8) -> State
    ensures { result ≡ opens_from first }
{
    match first {
        b'u' => State::Unicode,
        b't' => State::Transform,
        b'x' => State::Private,
        _ => State::Other,
    }
}

// A singleton, which begins the state `opened` unless something before it is unfinished.
fn singleton_state(st: State, opened: State) -> State
    ensures { result ≡ after_singleton st opened }
{
    match st {
        State::Main(_) | State::Keywords | State::Part(_) | State::Field | State::Others => opened,
        State::Unicode | State::Transform | State::Key | State::Other | State::Unfinished =>
            State::Unfinished,
        State::Private | State::Privates => State::Privates,
        State::First | State::Misplaced => State::Misplaced,
    }
}

// The transition.
#[tactic(auto, unfolding(crate::specs::Steps::next_from))]
pub(crate) fn step(st: State, t: Subtag) -> State
    ensures { result ≡ next_from st t }
{
    if t.len == 1 {
        singleton_state(st, opens(t.first))
    } else {
        other_state(st, t)
    }
}

// Has something begun that needs a subtag more?
pub(crate) fn pending(st: State) -> bool
    ensures { result ≡ pendingOf st }
{
    matches!(
        st,
        State::Unicode | State::Transform | State::Key | State::Other | State::Private
    )
}

fn stage_verdict(s: Stage) -> Verdict
    ensures { result ≡ stage_verdict s }
{
    match s {
        Stage::Variant => Verdict::Listed,
        Stage::Language | Stage::Script | Stage::Region | Stage::Root => Verdict::Plain,
    }
}

// What is to be done about the subtag that led to the state.
pub(crate) fn verdict_of(st: State) -> Verdict
    ensures { result ≡ verdict_of st }
{
    match st {
        State::Main(s) | State::Part(s) => stage_verdict(s),
        State::Unicode | State::Transform | State::Other | State::Private => Verdict::Singleton,
        State::Key => Verdict::Listed,
        State::First | State::Keywords | State::Field | State::Others | State::Privates =>
            Verdict::Plain,
        State::Misplaced => Verdict::Misplaced,
        State::Unfinished => Verdict::Unfinished,
    }
}
