// What reading reports: number and place, language, script and region in canonical case, and the counts.
ghost use Rattle.std.specs.Prelude.{◌≡◌, [], ◌≤◌, length};
ghost use Rattle.std.proofs.Math.Option.{none};
ghost use Rattle.standard.specs.Tag.{head_tag};
ghost use Rattle.standard.specs.Identifier.{und as undTag};
ghost use Rattle.standard.specs.Reading.{split, good, fault_of, identifier_of};
ghost use Rattle.standard.specs.Report.{report, report_of};
ghost use Rattle.subtag.specs.Bytes.{cased};
ghost use Rattle.reader.specs.Parts.{parts_of};
ghost use Rattle.reader.specs.Words.{word_is, report_is, accepted_is, later_word, LaterFits};

pub use crate::word::Word;
use crate::{Parts, Refusal, Start};

// Of an accepted identifier.
#[derive(Clone, Copy)]
pub struct Report {
    pub language: Word,
    pub script: Word,
    pub region: Word,
    pub variants: usize,
    pub extensions: usize,
}

// The subtag at the front of rest, its first `capitals` bytes as capitals.
fn word_of(rest: &[u8], capitals: usize) -> Word
    requires { length (head_tag (split rest.now)) ≤ 8 }
    ensures { word_is result ≡ cased capitals (head_tag (split rest.now)) }
{
    let len = subtag::scan(rest).len;
    let mut bytes = [0u8; 8];
    subtag::put_cased(&rest[..len], capitals, &mut bytes, 0);
    Word { bytes, len }
}

// No subtag.
#[tactic(auto, unfolding(crate::specs::Words::word_is))]
fn absent() -> Word
    ensures { word_is result ≡ [] }
{
    Word {
        bytes: [0u8; 8],
        len: 0,
    }
}

// The word `und`.
#[tactic(auto, unfolding(crate::specs::Words::word_is))]
fn und() -> Word
    ensures { word_is result ≡ undTag }
{
    Word {
        bytes: *b"und\0\0\0\0\0",
        len: 3,
    }
}

// The subtag behind the separator at `from`, where a part goes from there to `to`.
fn later(id: &[u8], from: usize, to: usize, capitals: usize) -> Word
    requires { LaterFits from to id.now }
    ensures { word_is result ≡ later_word capitals from to id.now }
{
    if from < to {
        word_of(&id[from + 1..], capitals)
    } else {
        absent()
    }
}

// The report of an accepted identifier.
fn report_parts(id: &[u8], p: Parts) -> Report
    requires { (fault_of id.now ≡ none) × (p ≡ parts_of (split id.now)) }
    ensures { accepted_is result ≡ report_of (good (identifier_of (split id.now))) }
{
    let (language, script, region) = match p.start {
        Start::Language => (
            word_of(id, 0),
            later(id, p.language, p.script, 1),
            later(id, p.script, p.region, 8),
        ),
        Start::Script => (und(), word_of(id, 1), later(id, p.script, p.region, 8)),
        Start::Root => (und(), absent(), absent()),
    };
    Report {
        language,
        script,
        region,
        variants: p.variant_count,
        extensions: p.extension_count,
    }
}

// Reads an identifier.
pub fn read(id: &[u8]) -> Result<Report, Refusal>
    ensures { report_is result ≡ report id.now }
{
    let p = crate::read_parts(id)?;
    Ok(report_parts(id, p))
}
