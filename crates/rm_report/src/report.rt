// A report of the hosts that gained most.
ghost use Rattle.std.specs.Prelude.{◌≡◌, ◌≤◌, ℕ, [], length, OnSome};
ghost use Rattle.std.specs.Option.{option_copied};
ghost use Rattle.rm_model.specs.Counting.{Counting};
ghost use Rattle.rm_model.specs.Journal.{Journal};
ghost use Rattle.rm_collect.specs.Rows.{IsKept};
ghost use Rattle.rm_hosts.specs.Control.{host_control};
ghost use Rattle.rm_hosts.specs.Tables.{IsTable};
ghost use Rattle.rm_keyed.specs.declared.keyed.TheConstants.{MOST_ROWS};
ghost use Rattle.rm_report.specs.Copies.{AreCopies};
ghost use Rattle.rm_report.specs.Rates.{hosts_held, rate_of};
ghost use Rattle.rm_report.specs.RateBase.{count_of};
ghost use Rattle.rm_report.specs.Ranking.{IsReport, ranked_at};
ghost use Rattle.rm_report.specs.Linked.{IsLinked};
ghost use Rattle.rm_report.specs.Measured.{IsMeasured};

use crate::copied::{Copied, copy_hosts};
use crate::ranked::{Ranked, rank, rate_hosts};
use crate::rate_base::RateBase;
use rm_hosts::HostTable;
use rm_keyed::MOST_ROWS;
use rm_pool::Part;
use rm_val::NoMemory;
use std::alloc::{AllocError, Global};
use std::marker::Model;

/// The storage of a report: a copy of what the hosts of a table had counted when it began, and the hosts that gained most.
#[derive(Drop)]
pub struct Report {
    copies: Vec<Copied>,
    rows: Vec<Ranked>,
}

impl Model for Report {
    ghost use Rattle.std.specs.Prelude.{◌≤◌, vec_capacity, vec_len};
    ghost use Rattle.rm_keyed.specs.declared.keyed.TheConstants.{MOST_ROWS};
    ghost use Rattle.rm_report.specs.Kept.{Kept};

    ghost Value = { Kept };

    ghost view = { λ s. record { copies = s.copies.items; rows = s.rows.items } };

    ghost invariant = { λ s. (MOST_ROWS ≤ vec_capacity s.copies) × (MOST_ROWS ≤ vec_capacity s.rows) × (vec_len s.rows ≤ MOST_ROWS) };
}

impl Part for Report {
    fn spare(alloc: Global) -> Result<Report, NoMemory> {
        Report::reserve(alloc).map_err(|_| NoMemory)
    }
}

impl Report {
    // The storage of as many hosts as a table holds at most.
    fn reserve(alloc: Global) -> Result<Report, AllocError> {
        let copies = Vec::with_capacity(alloc, MOST_ROWS as usize)?;
        let rows = Vec::with_capacity(alloc, MOST_ROWS as usize)?;
        Ok(Report { copies, rows })
    }

    /// Begins anew: takes a copy of the counter of each host of a table, if there is one, and drops the hosts that were reported.
    pub fn begin(&mut self, hosts: Option<&HostTable>, base: RateBase)
        ensures copies { (settings : Counting) (journal : Journal) (row : ℕ) → IsKept host_control IsTable settings journal row (option_copied hosts.entry)
            → AreCopies settings journal row base self.new.copies }
        ensures rows { self.new.rows ≡ [] }
    {
        self.rows.clear();
        match hosts {
            Some(table) => copy_hosts(&mut self.copies, table.rows.keyed.rows(), base),
            None => self.copies.clear(),
        }
    }

    /// Ends: reports so many hosts at most of a table, if there is one, by what they gained since the report began, or since they entered
    /// the table after that.
    pub fn end(&mut self, hosts: Option<&HostTable>, base: RateBase, most: u32)
        ensures rows { (settings : Counting) (from journal : Journal) (row : ℕ) → IsLinked from journal row → IsMeasured settings journal
            → AreCopies settings from row base self.old.copies
            → IsKept host_control IsTable settings journal row (option_copied hosts.entry)
            → IsReport (rate_of settings from journal row (count_of base)) (hosts_held settings journal row) most self.new.rows }
        ensures copies { self.new.copies ≡ self.old.copies }
    {
        match hosts {
            Some(table) => rate_hosts(&mut self.rows, &self.copies, table.rows.keyed.rows(), base),
            None => self.rows.clear(),
        }
        rank(&mut self.rows, most as usize);
    }

    /// The host at a place of the report, from 1, with its rate. None where there is none.
    pub fn at(&self, place: u32) -> Option<&Ranked>
        ensures value { option_copied result ≡ ranked_at place self.now.rows }
        ensures within { OnSome result (place ≤ MOST_ROWS) }
    {
        let place = (place as usize).checked_sub(1)?;
        self.rows.get(place)
    }

    /// How many hosts are reported.
    pub fn len(&self) -> usize
        ensures value { result ≡ length self.now.rows }
        ensures most { result ≤ MOST_ROWS }
    {
        self.rows.len()
    }
}
