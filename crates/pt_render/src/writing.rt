//! A history that is written with what each event changed: by lines, or as a page for a browser.

ghost use Rattle.std.specs.Prelude.{◌≡◌, ◌++◌, OnOk, codes, map};
ghost use Rattle.std.specs.Io.KnownBytes.{Appends};
ghost use Rattle.pt_chart.specs.Drawing.{called_given};
ghost use Rattle.pt_render.specs.Pages as spec;
ghost use Rattle.pt_render.specs.Pages.{step_told};

use crate::json::{JsonLeftOver, JsonVerdict};
use crate::names::JsonNames;
use crate::page::{PAGE_END, PAGE_HEAD, PAGE_NAMES};
use crate::stepping::Step;
use crate::steps::JsonStep;
use pt_chart::Called;
use pt_signal::LeftOver;
use std::io;
use std::io::Write;

/// Writes the events as JSON, each with what it changed, and then the letters left over, one object in each line.
pub fn write_steps<W: Write>(out: &mut W, steps: &[Step], letters: &[LeftOver]) -> io::Result<()>
    ensures { OnOk result (Appends (W.contents out.old) (W.contents out.new)
        (spec.steps_text (map step_told steps.now) letters.now)) }
{
    write_events(out, steps)?;
    write_letters(out, letters)
}

/// Writes the page of a legal history. The processes have these names, which have no character that JSON would escape.
pub fn write_page<W: Write>(
    out: &mut W,
    steps: &[Step],
    letters: &[LeftOver],
    called: &[Called<'_>],
) -> io::Result<()>
    ensures { OnOk result (Appends (W.contents out.old) (W.contents out.new)
        (spec.page_text (map step_told steps.now) letters.now (map called_given called.now))) }
{
    write_line(out, PAGE_HEAD)?;
    write_steps(out, steps, letters)?;
    write_verdict(out, steps, letters)?;
    write_line(out, PAGE_NAMES)?;
    write_names(out, called)?;
    write_line(out, PAGE_END)
}

fn write_line<W: Write>(out: &mut W, text: &str) -> io::Result<()>
    ensures { OnOk result (Appends (W.contents out.old) (W.contents out.new) (text.now ++ codes "\n")) }
{
    writeln!(out, "{text}")
}

fn write_events<W: Write>(out: &mut W, steps: &[Step]) -> io::Result<()>
    ensures { OnOk result (Appends (W.contents out.old) (W.contents out.new)
        (spec.step_lines (map step_told steps.now))) }
{
    for step in steps {
        write_event(out, step)?;
    }
    Ok(())
}

fn write_event<W: Write>(out: &mut W, step: &Step) -> io::Result<()>
    ensures { OnOk result (Appends (W.contents out.old) (W.contents out.new) (spec.step_line (step_told step.now))) }
{
    let line = JsonStep {
        stamped: step.stamped,
        then: step.then.as_slice(),
    };
    writeln!(out, "{line}")
}

fn write_letters<W: Write>(out: &mut W, letters: &[LeftOver]) -> io::Result<()>
    ensures { OnOk result (Appends (W.contents out.old) (W.contents out.new) (spec.left_json_lines letters.now)) }
{
    for letter in letters {
        write_letter(out, *letter)?;
    }
    Ok(())
}

fn write_letter<W: Write>(out: &mut W, left: LeftOver) -> io::Result<()>
    ensures { OnOk result (Appends (W.contents out.old) (W.contents out.new) (spec.left_json_line left)) }
{
    let letter = JsonLeftOver {
        from_desk: left.from_desk,
        to_desk: left.to_desk,
        letter: left.letter,
    };
    writeln!(out, "{letter}")
}

/// Writes the counts of the history, as the verdict on it.
fn write_verdict<W: Write>(out: &mut W, steps: &[Step], letters: &[LeftOver]) -> io::Result<()>
    ensures { OnOk result (Appends (W.contents out.old) (W.contents out.new)
        (spec.verdict_line (map step_told steps.now) letters.now)) }
{
    let verdict = JsonVerdict {
        events: steps.len() as u64,
        desks: desks_of(steps),
        letters: letters.len() as u64,
    };
    writeln!(out, "{verdict}")
}

/// One more than the greatest number of a desk that has an event.
fn desks_of(steps: &[Step]) -> u16
    ensures { result ≡ spec.desks_told (map step_told steps.now) }
{
    let mut desks = 0u16;
    for step in steps {
        desks = desks.max(step.stamped.desk as u16 + 1);
    }
    desks
}

fn write_names<W: Write>(out: &mut W, called: &[Called<'_>]) -> io::Result<()>
    ensures { OnOk result (Appends (W.contents out.old) (W.contents out.new)
        (spec.names_json (map called_given called.now) ++ codes "\n")) }
{
    let names = JsonNames(called);
    writeln!(out, "{names}")
}
