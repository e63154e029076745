// Language, perhaps script, perhaps region: the keys and values of rows.
ghost use Rattle.std.specs.Prelude.{◌≡◌, Bool, true, ℕ, ◌≤◌};
ghost use Rattle.standard.specs.Table.{is_three};
ghost use Rattle.row_shapes.specs.Shapes.{run, language_len, script_len, region_len, script_end, FrontIs, ThreeAt, ThreeIs};

// Where language and script end in language, perhaps script, perhaps region. Where there is no script it ends with the
// language; the region goes to the end.
#[derive(Clone, Copy)]
pub struct Three {
    pub language: usize,
    pub script: usize,
}

// How many bytes at the front pass the test.
fn run_of<F: Fn(u8) -> bool>(s: &[u8], test: F) -> usize
    requires { F.IsAlwaysCallable test }
    ensures { (p : ℕ → Bool) → ((b : ℕ) (r : Bool) → F.post test b r → r ≡ p b) → result ≡ run p s.now }
{
    s.iter().take_while(|b| test(**b)).count()
}

// The length of the language at the front, or 0.
#[tactic(auto, unfolding(crate::specs::Shapes::language_len))]
fn language_len(s: &[u8]) -> usize
    ensures { result ≡ language_len s.now }
{
    match run_of(s, subtag::is_small) {
        n @ (2 | 3 | 5..=8) => n,
        _ => 0,
    }
}

// The length of a separator and a script at the front, or 0.
#[tactic(auto, unfolding(crate::specs::Shapes::script_len))]
fn script_len(s: &[u8]) -> usize
    ensures { result ≡ script_len s.now }
{
    if s.len() < 2 || s[0] != b'-' || !subtag::is_capital(s[1]) {
        return 0;
    }
    if run_of(&s[2..], subtag::is_small) == 3 {
        5
    } else {
        0
    }
}

// The length of a separator and a region at the front, or 0.
#[tactic(auto, unfolding(crate::specs::Shapes::region_len))]
fn region_len(s: &[u8]) -> usize
    ensures { result ≡ region_len s.now }
{
    if s.len() < 1 || s[0] != b'-' {
        return 0;
    }
    let tag = &s[1..];
    if run_of(tag, subtag::is_capital) == 2 {
        3
    } else if run_of(tag, subtag::is_digit) == 3 {
        4
    } else {
        0
    }
}

// The same three at the front of a text that may go on, and where they end. One pass finds that, so a row needs no search
// for its tab and its end.
#[derive(Clone, Copy)]
pub struct Front {
    pub language: usize,
    pub script: usize,
    pub end: usize,
}

pub(crate) fn front_of(s: &[u8]) -> Option<Front>
    ensures { FrontIs s.now result }
{
    let language = language_len(s);
    if language == 0 {
        return None;
    }
    let script = language + script_len(&s[language..]);
    let end = script + region_len(&s[script..]);
    Some(Front {
        language,
        script,
        end,
    })
}

pub(crate) fn three_of(s: &[u8]) -> Option<Three>
    ensures { ThreeIs s.now result }
{
    let front = front_of(s)?;
    if front.end < s.len() {
        return None;
    }
    Some(Three {
        language: front.language,
        script: front.script,
    })
}

// Where the script ends in such a text of len bytes whose language ends at e: a region is shorter than a script.
#[tactic(auto, unfolding(crate::specs::Shapes::script_end))]
pub fn script_end(e: usize, len: usize) -> usize
    requires { e ≤ 4096 }
    ensures { result ≡ script_end e len }
{
    if e + 5 <= len { e + 5 } else { e }
}

// The same as three_of where a row's test has found the three already: the first separator and the length tell the rest.
pub fn ends_of(s: &[u8]) -> Three
    requires { is_three s.now ≡ true }
    ensures { ThreeAt s.now result }
{
    let language = byte_string::end_of(s, b'-', 0);
    let script = script_end(language, s.len());
    Three { language, script }
}
