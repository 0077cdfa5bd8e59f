// The lines of a load, each by one put.
ghost use Rattle.std.specs.Prelude.{ℕ, ◌+◌, ◌≤◌};
ghost use Rattle.rm_agent.specs.Groups.{cells};
ghost use Rattle.rm_edge.specs.Outside.{HasCause, Puts};
ghost use Rattle.rm_model.specs.Journal.{Journal};
ghost use Rattle.rm_probe.specs.Probe.{settings_of, last_given, HasHandledBy, Stands};
ghost use Rattle.rm_settings.specs.declared.settings.Settings.{Settings};
ghost use Rattle.rm_summary.specs.Text.{line};
ghost use Rattle.rm_load.specs.Steps.{IsLoaded};
ghost use Rattle.rm_load.specs.Text.{figure_in, figure_lines, text_of, word_of};

use crate::figure::{FIGURES, Figure, number_shown};
use crate::loading::moment_behind;
use crate::made::MOST_MADE;
use rm_edge::{Failed, Sink};
use rm_probe::Probe;
use rm_summary::line;

/// Writes the lines of a probe that was loaded with so many frames.
pub fn write<K: Sink>(probe: &Probe, count: u32, out: &mut K) -> Result<(), Failed>
    requires few { count ≤ MOST_MADE }
    requires last { last_given probe.now ≤ 1001 + count }
    requires handled { HasHandledBy (1001 + count) probe.now }
    ensures text { (settings : Settings) (start : ℕ) → IsLoaded settings start count probe.now
        → Puts (K.content out.old) (K.content out.new) (text_of settings start count) result }
    ensures cause { HasCause (K.faults out.old) (K.faults out.new) result }
{
    write_figures(&FIGURES, probe, moment_behind(count), out)?;
    out.put(&line(b"end", u64::from(count)))
}

// Writes the lines of some figures, as a probe shows them at a moment in milliseconds.
fn write_figures<K: Sink>(
    figures: &[Figure],
    probe: &Probe,
    moment: u32,
    out: &mut K,
) -> Result<(), Failed>
    requires last { last_given probe.now ≤ moment }
    requires handled { HasHandledBy moment probe.now }
    ensures text { (journal : Journal) → Stands probe.now journal
        → Puts (K.content out.old) (K.content out.new) (figure_lines (cells (settings_of probe.now) journal moment) figures.now) result }
    ensures cause { HasCause (K.faults out.old) (K.faults out.new) result }
{
    for figure in figures {
        put_figure(*figure, probe, moment, out)?;
    }
    Ok(())
}

// Puts the line of a figure, as a probe shows it at a moment in milliseconds.
fn put_figure<K: Sink>(
    figure: Figure,
    probe: &Probe,
    moment: u32,
    out: &mut K,
) -> Result<(), Failed>
    requires last { last_given probe.now ≤ moment }
    requires handled { HasHandledBy moment probe.now }
    ensures text { (journal : Journal) → Stands probe.now journal
        → Puts (K.content out.old) (K.content out.new) (line (word_of figure) (figure_in (cells (settings_of probe.now) journal moment) figure)) result }
    ensures cause { HasCause (K.faults out.old) (K.faults out.new) result }
{
    let number = number_shown(probe.cell(&figure.variable(), moment));
    out.put(&line(figure.word(), u64::from(number)))
}
