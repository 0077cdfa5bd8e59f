// Laws of the counts of rows. The bodies are empty.
ghost use Rattle.std.specs.Prelude.{◌≡◌, nat_lt};
ghost use Rattle.rm_model.specs.Journal.{Journal};
ghost use Rattle.rm_model.specs.Indexing.{one_number};
ghost use Rattle.rm_model.specs.ControlTable.{ControlTable, row_index};
ghost use Rattle.rm_model.specs.ControlRows.{no_rows, state_of, is_valid};
ghost use Rattle.rm_model.specs.Judgement.{Bindings, is_held_or_made, is_crowded, rows_after};
ghost use Rattle.rm_model.specs.Reserves.{state_after, count_valid, count_valid_after};
ghost use Rattle.rm_status.specs.OfRows.{IsFineAlone, AreSetsFine, count_rows};

/// A law: where the index of a row is one number, and rows come of accepted Sets alone, a Set with which nothing is wrong alone is
/// crowded, and rows are valid before it and after it, by a count of the rows 1 to 65535.
pub fn rows_are_counted()
    ensures crowded { (table : ControlTable) (journal : Journal) (bindings : Bindings) → table.indexing ≡ one_number → AreSetsFine table journal → IsFineAlone table bindings
        → is_crowded table (rows_after table no_rows journal) bindings ≡ nat_lt table.most (count_rows (λ row. is_held_or_made table (rows_after table no_rows journal) bindings (row_index table row))) }
    ensures valid { (table : ControlTable) (journal : Journal) → table.indexing ≡ one_number → AreSetsFine table journal
        → count_valid table (rows_after table no_rows journal) ≡ count_rows (λ row. is_valid (state_of table no_rows journal (row_index table row))) }
    ensures valid_after { (table : ControlTable) (journal : Journal) (bindings : Bindings) → table.indexing ≡ one_number → AreSetsFine table journal → IsFineAlone table bindings
        → count_valid_after table (rows_after table no_rows journal) bindings ≡ count_rows (λ row. is_valid (state_after table (rows_after table no_rows journal) bindings (row_index table row))) }
{}
