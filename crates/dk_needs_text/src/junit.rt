//! The rows as JUnit XML. No id, name or number has a byte that XML escapes (`cases_need_no_escapes`).
ghost use Rattle.std.specs.Prelude.{◌≡◌, ◌++◌, flat_map, string_bytes, IfOk, OnOk};
ghost use Rattle.dk_needs_text.specs.Junit.{answer_case, behind_space, case_text, end_text, needs_junit, row_case, suite_line, suite_text};

use crate::counts::how_many;
use crate::table::measure_field;
use crate::text::answer_text;
use dk_config::{NoMemory, Text};
use dk_config_report::{Page, push_line};
use dk_needs::{Need, Needs, Tick, key_name, section_key};
use dk_needs_check::{Answer, Row, Verdict, verdict_of};
use std::alloc::{AllocError, Global};

fn suite_text(
    alloc: Global,
    tests: usize,
    missed: usize,
    untested: usize,
) -> Result<String, AllocError>
    ensures { IfOk result (λ s. string_bytes s ≡ suite_text tests missed untested) }
{
    format!(in alloc;
        "<testsuite name=\"needs\" tests=\"{tests}\" failures=\"{missed}\" skipped=\"{untested}\">\n"
    )
}

fn end_text(alloc: Global, verdict: Verdict, answer: &str) -> Result<String, AllocError>
    ensures { IfOk result (λ s. string_bytes s ≡ end_text verdict answer.now) }
{
    match verdict {
        Verdict::Met => String::from_str(alloc, "/>\n"),
        Verdict::Missed => { format!(in alloc; "><failure message=\"{answer}\"/></testcase>\n") }
        Verdict::Open => format!(in alloc; "><skipped message=\"{answer}\"/></testcase>\n"),
    }
}

fn behind_space(alloc: Global, word: &str) -> Result<String, AllocError>
    ensures { IfOk result (λ s. string_bytes s ≡ behind_space word.now) }
{
    if word.is_empty() {
        String::from_str(alloc, "")
    } else {
        format!(in alloc; " {word}")
    }
}

fn case_text(
    alloc: Global,
    section: &str,
    id: &str,
    measure: &str,
    end: &str,
) -> Result<String, AllocError>
    ensures { IfOk result (λ s. string_bytes s ≡ case_text section.now id.now measure.now end.now) }
{
    format!(in alloc; "<testcase classname=\"{section}\" name=\"{id}{measure}\"{end}")
}

#[tactic(auto, unfolding(crate::specs::Junit::answer_case))]
fn answer_case(
    alloc: Global,
    names: &[Text],
    tick: Option<Tick>,
    need: &Need,
    answer: Answer,
) -> Result<String, AllocError>
    ensures { IfOk result (λ s. string_bytes s ≡ answer_case names.now tick need.now answer) }
{
    let text = answer_text(alloc, names, tick, &need.what, answer)?;
    let end = end_text(alloc, verdict_of(answer), text.as_str())?;
    let measure = behind_space(alloc, measure_field(answer))?;
    case_text(
        alloc,
        key_name(section_key(need.place.section)),
        need.id.as_str(),
        measure.as_str(),
        end.as_str(),
    )
}

fn row_case(
    alloc: Global,
    names: &[Text],
    tick: Option<Tick>,
    needs: &[Need],
    row: Row,
) -> Result<String, AllocError>
    ensures { IfOk result (λ s. string_bytes s ≡ row_case names.now tick needs.now row) }
{
    match needs.get(row.need) {
        Some(need) => answer_case(alloc, names, tick, need, row.answer),
        None => String::from_str(alloc, ""),
    }
}

fn add_cases(
    alloc: Global,
    text: &mut String,
    names: &[Text],
    tick: Option<Tick>,
    needs: &[Need],
    rows: &[Row],
) -> Result<(), AllocError>
    ensures { OnOk result (string_bytes text.new
        ≡ string_bytes text.old ++ flat_map (row_case names.now tick needs.now) rows.now) }
{
    for row in rows {
        let line = row_case(alloc, names, tick, needs, *row)?;
        push_line(text, line)?;
    }
    Ok(())
}

fn suite_line(alloc: Global, rows: &[Row]) -> Result<String, AllocError>
    ensures { IfOk result (λ s. string_bytes s ≡ suite_line rows.now) }
{
    suite_text(
        alloc,
        rows.len(),
        how_many(rows, Verdict::Missed),
        how_many(rows, Verdict::Open),
    )
}

/// The same as JUnit XML: a test case for each row, named by its need and by what is asked for. One that is missed has
/// failed, one that is open is skipped. The names are those of the processes. `Err` is want of memory.
pub fn needs_junit(
    alloc: Global,
    names: &[Text],
    needs: &Needs,
    rows: &[Row],
) -> Result<Page, NoMemory>
    ensures { IfOk result (λ page. page ≡ needs_junit names.now needs.now rows.now) }
{
    let mut text = String::from_str(alloc, "<?xml version=\"1.0\" encoding=\"UTF-8\"?>\n")?;
    push_line(&mut text, suite_line(alloc, rows)?)?;
    add_cases(alloc, &mut text, names, needs.tick, &needs.rows, rows)?;
    push_line(&mut text, String::from_str(alloc, "</testsuite>\n")?)?;
    Ok(Page::new(text))
}
