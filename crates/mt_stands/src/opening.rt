//! Laws on rows and logs that stay.
ghost use Rattle.std.specs.Prelude.{List};
ghost use Rattle.mt_model.specs.declared.entries.Scope.{Scope};
ghost use Rattle.mt_plain.specs.Plain.{opening};
ghost use Rattle.mt_stands.specs.Rows.{RowsStand, no_primaries};

/// Empty primaries stand for the opening.
pub fn the_opening_has_no_rows()
    ensures { (scopes : List Scope) → RowsStand (opening scopes) no_primaries }
{}
