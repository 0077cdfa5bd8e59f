// channelTable, as a group of objects.
ghost use Rattle.std.specs.Prelude.{◌≡◌, [], pos, IfSome, OnSome, IfNone};
ghost use Rattle.std.specs.Option.{option_map};
ghost use Rattle.rm_val.specs.Val.{val_of};
ghost use Rattle.rm_val.specs.Spellable.{IsSpellable, HasSpelling};
ghost use Rattle.rm_model.specs.Counting.{Counting};
ghost use Rattle.rm_model.specs.Cells.{IsNext, cells_of};
ghost use Rattle.rm_status.specs.Rows.{AreControlRows};
ghost use Rattle.rm_acts.specs.Channels.{channel_table};
ghost use Rattle.rm_filter.specs.Tables.{HasChannels};
ghost use Rattle.rm_filter.specs.Shown.{channels_kept, with_present, present_at, control_in, status_in};

use crate::changes::Resting;
use crate::channel::Channel;
use crate::channel_row::CHANNEL_OBJECTS;
use rm_columns::{ControlRow, Numbered};
use rm_group::{Assigns, Commits, Group, Look, Readable, Storeless, instance_of};
use rm_model::{Instance, Verdict};
use rm_status::{Controls, OtherColumns, Row, row_number};
use rm_val::{Oid, Value};

/// The channels: channelTable (RFC 1757, section 5).
#[derive(Drop)]
pub struct ChannelTable {
    pub(crate) rows: Controls<Channel>,
}

/// channelMatches is the only column of channelTable but the index that can't be set.
#[derive(Clone, Copy)]
struct Matches;

impl OtherColumns<Channel> for Matches {
    ghost use Rattle.rm_filter.specs.Shown.{kept_other};

    ghost others = { λ s rows. kept_other rows };

    fn other(&self, _index: u32, row: &Row<Channel>, _column: u32) -> Value<'static> {
        Value::Counter(row.columns.matches)
    }
}

impl ChannelTable {
    /// No channel.
    pub(crate) fn new() -> ChannelTable
        ensures { (settings : Counting) → HasChannels result settings [] }
    {
        ChannelTable {
            rows: Controls::new(),
        }
    }

    // What the table shows under a name. None where it shows nothing.
    fn shown_at(&self, name: &Oid) -> Option<Value<'_>>
        ensures value { option_map val_of result ≡ cells_of (channels_kept self.now.rows) name.now }
        ensures spelling { IfSome result (λ value. HasSpelling (val_of value)) }
        ensures rows { AreControlRows channel_table self.now.rows }
    {
        prove!(self.rows.len() <= 32);
        let value = self.rows.cell(&Matches, name)?;
        Some(self.present(name, value))
    }

    // What it shows under the least name above one. That name is put into `out`. None where it shows nothing above it; `out` is
    // then as before.
    fn shown_after(&self, name: &Oid, out: &mut Oid) -> Option<Value<'_>>
        ensures next { IsNext (cells_of (channels_kept self.now.rows)) name.now (option_map val_of result) out.new }
        ensures stays { IfNone result (out.new ≡ out.old) }
        ensures name_spelling { OnSome result (IsSpellable out.new) }
        ensures spelling { IfSome result (λ value. HasSpelling (val_of value)) }
        ensures rows { AreControlRows channel_table self.now.rows }
    {
        prove!(self.rows.len() <= 32);
        let value = self.rows.next_cell(&Matches, name, out)?;
        Some(self.present(out, value))
    }

    // What it shows under a name, by what was set: DataControl and EventStatus as they are at present.
    fn present<'a>(&self, name: &Oid, value: Value<'a>) -> Value<'a>
        ensures value { val_of result ≡ with_present self.now.rows name.now (val_of value.entry) }
        ensures spelling { HasSpelling (val_of value.entry) → HasSpelling (val_of result) }
    {
        match instance_of(name, &Channel::entry(), CHANNEL_OBJECTS.columns) {
            Some(at) => self.present_at(&at, value),
            None => value,
        }
    }

    // The same at an instance.
    fn present_at<'a>(&self, at: &Instance, value: Value<'a>) -> Value<'a>
        ensures value { val_of result ≡ present_at self.now.rows at.now (val_of value.entry) }
        ensures spelling { HasSpelling (val_of value.entry) → HasSpelling (val_of result) }
    {
        match at.column {
            4 => Value::Int(self.control(row_number(&at.index))),
            8 => Value::Int(self.status(row_number(&at.index))),
            _ => value,
        }
    }

    // The number of the present DataControl of a channel, 0 where there is no such channel.
    fn control(&self, index: u32) -> i32
        ensures { result ≡ pos (control_in self.now.rows index) }
    {
        match self.rows.get(index) {
            Some(channel) => channel.control.number(),
            None => 0,
        }
    }

    // The number of its present EventStatus.
    fn status(&self, index: u32) -> i32
        ensures { result ≡ pos (status_in self.now.rows index) }
    {
        match self.rows.get(index) {
            Some(channel) => channel.status.number(),
            None => 0,
        }
    }
}

impl Group for ChannelTable {
    ghost use Rattle.rm_model.specs.ControlRows.{no_rows};
    ghost use Rattle.rm_model.specs.Judgement.{second_pass, rows_after};
    ghost use Rattle.rm_acts.specs.Shown.{channels_shown};
    ghost use Rattle.rm_filter.specs.Tables.{channel_alone, AreChannelsFine};
    ghost use Rattle.rm_filter.specs.Finite.{channels_finite};

    ghost stands = { HasChannels };

    ghost clock = { λ s. 0 };

    ghost askable = { λ s moment. Unit {0} };

    ghost frames = { λ s. 0 };

    ghost cells = { λ settings journal now. cells_of (channels_shown settings journal) };

    ghost alone = { channel_alone };

    ghost together = { λ settings journal now readings bindings place. second_pass channel_table (rows_after channel_table no_rows journal) bindings place };

    ghost accepts = { λ s now. AreChannelsFine s };

    ghost finite = { λ settings journal now. channels_finite settings journal };

    fn least() -> &'static [u32] {
        CHANNEL_OBJECTS.entry
    }

    fn cell(&self, name: &Oid, _now: u32) -> Option<Value<'_>> {
        self.shown_at(name)
    }

    fn after(&self, name: &Oid, _now: u32, out: &mut Oid) -> Option<Value<'_>> {
        self.shown_after(name, out)
    }

    fn judge_alone<A: Assigns>(&self, set: &A) -> Verdict {
        self.rows.judge_alone(set)
    }

    fn judge_rows<A: Assigns, L: Look>(&self, set: &A, _now: u32, _look: &L) -> Verdict {
        self.rows.judge_rows(set)
    }
}

impl Storeless for ChannelTable {}

impl Commits for ChannelTable {
    fn commit<A: Assigns>(&mut self, set: &A, _now: u32) {
        prove!(self.rows.len() <= 32);
        self.rows.commit(set);
        self.rows.change_each(&Resting);
    }
}

impl Readable for ChannelTable {
    ghost use Rattle.rm_acts.specs.Shown.{channels_shown};
    ghost use Rattle.rm_acts.proofs.ShownLaws.{channels_before};

    ghost sampleable = { λ settings journal now. cells_of (channels_shown settings journal) };

    ghost shown = { λ s now. cells_of (channels_kept s.rows) };

    fn value(&self, name: &Oid, _now: u32) -> Option<Value<'_>> {
        self.shown_at(name)
    }

    fn shows(&self, _now: u32) {
        prove!(self.rows.len() <= 32);
    }

    ghost recurring = { channels_before };
}
