// The maximised and the minimised three, by parts.
ghost use Rattle.std.specs.Prelude.{◌≡◌};
ghost use Rattle.likely.specs.Parts.{Ready, fill_parts, fits_parts, minimal_parts};
ghost use Rattle.likely.specs.Lent.{parts_is, filled_is};

use crate::parts::{Parts, cut_value, first_of, is_complete, language_of};
use crate::rows::find_row;
use byte_string::same;
use table::hints::HintedTable;

// The parts, completed by a row where something is missing, if there is one.
pub(crate) fn completed<'a>(likely: &HintedTable<'a>, parts: &Parts<'a>) -> Option<Parts<'a>>
    ensures { let p = parts_is parts.entry.now in let likely = likely.entry.now in
        Ready likely.rows.now likely.hints.now p → filled_is result ≡ fill_parts likely.rows.now p }
{
    if is_complete(parts) {
        return Some(*parts);
    }
    let row = cut_value(find_row(likely, parts)?);
    Some(Parts {
        language: language_of(parts.language, row.language),
        script: first_of(parts.script, row.script),
        region: first_of(parts.region, row.region),
    })
}

// Do the parts of a trial maximise to the language, script and region of the maximised form?
fn fits(likely: &HintedTable, trial: &Parts, whole: &Parts) -> bool
    ensures { let p = parts_is trial.entry.now in let likely = likely.entry.now in
        Ready likely.rows.now likely.hints.now p → result ≡ fits_parts likely.rows.now (parts_is whole.entry.now) p }
{
    let Some(value) = find_row(likely, trial) else {
        return false;
    };
    let row = cut_value(value);
    same(first_of(trial.script, row.script), whole.script)
        && same(first_of(trial.region, row.region), whole.region)
}

// The first trial that maximises to the three, or the three.
pub(crate) fn minimised<'a>(likely: &HintedTable<'a>, whole: &Parts<'a>) -> Parts<'a>
    ensures { let m = parts_is whole.entry.now in let likely = likely.entry.now in
        Ready likely.rows.now likely.hints.now m → parts_is result ≡ minimal_parts likely.rows.now m }
{
    let alone = Parts {
        script: b"",
        region: b"",
        ..*whole
    };
    let by_region = Parts {
        script: b"",
        ..*whole
    };
    let by_script = Parts {
        region: b"",
        ..*whole
    };
    if fits(likely, &alone, whole) {
        alone
    } else if fits(likely, &by_region, whole) {
        by_region
    } else if fits(likely, &by_script, whole) {
        by_script
    } else {
        *whole
    }
}
