// The lines of a summary, each by one put.
ghost use Rattle.rm_edge.specs.Outside.{HasCause, Puts};
ghost use Rattle.rm_summary.specs.Text.{figure_lines};
ghost use Rattle.rm_summary.specs.Counted.{figure_in, text_of};

use crate::counts::Counts;
use crate::figure::{FIGURES, Figure};
use crate::lines::line;
use crate::reading::Summary;
use rm_edge::{Failed, Sink};

/// Writes the lines of a summary.
pub fn write<K: Sink>(summary: &Summary, out: &mut K) -> Result<(), Failed>
    ensures text { Puts (K.content out.old) (K.content out.new) (text_of summary.now) result }
    ensures cause { HasCause (K.faults out.old) (K.faults out.new) result }
{
    write_figures(&FIGURES, &summary.counts, out)?;
    out.put(&line(
        &summary.ending.word(),
        summary.counts.figure(Figure::Frames),
    ))
}

// Writes the lines of some figures.
fn write_figures<K: Sink>(figures: &[Figure], counts: &Counts, out: &mut K) -> Result<(), Failed>
    ensures text { Puts (K.content out.old) (K.content out.new) (figure_lines (figure_in counts.now) figures.now) result }
    ensures cause { HasCause (K.faults out.old) (K.faults out.new) result }
{
    for figure in figures {
        out.put(&line(figure.word(), counts.figure(*figure)))?;
    }
    Ok(())
}
