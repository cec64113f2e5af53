//! What a table holds of a prefix it holds of each shorter one.
ghost use Rattle.std.specs.Prelude.{◌++◌, ◌∷◌, [], List};
ghost use Rattle.charge_model.specs.declared.charge.Charge.{Charge};
ghost use Rattle.charge_model.specs.Problem.{Problem};
ghost use Rattle.prefix_extremes.specs.declared.amount.Amount.{Amount};
ghost use Rattle.prefix_rows.specs.declared.row.Row.{Row};
ghost use Rattle.prefix_rows.specs.Limits.{AreLimitsOf};
ghost use Rattle.prefix_rows.specs.Tables.{AreRowsOf, ArePartsOf};

/// The tables of a prefix are those of the prefix without its last charge.
pub fn shorter_prefixes_keep_tables()
    ensures rows { (p : Problem) (prefix : List Charge) (charge : Charge) (rows : List Row)
        → AreRowsOf p (prefix ++ charge ∷ []) rows → AreRowsOf p prefix rows }
    ensures parts { (p : Problem) (prefix : List Charge) (charge : Charge) (parts : List Amount)
        → ArePartsOf p (prefix ++ charge ∷ []) parts → ArePartsOf p prefix parts }
    ensures limits { (p : Problem) (prefix : List Charge) (charge : Charge) (limits : Row)
        → AreLimitsOf p (prefix ++ charge ∷ []) limits → AreLimitsOf p prefix limits }
{}
