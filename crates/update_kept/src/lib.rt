// How many kept facts fit their two tables, of rows and of supports (document 01, "Tables"); definitions and laws of what these hold.
#![tactic(auto)]

ghost use Rattle.std.specs.Prelude.{◌≡◌, min, length};
ghost use Rattle.spec.specs.Tables.{capacity, most_kept};

// How many kept facts fit.
pub fn kept_capacity(kept: &[u32], supports: &[u16]) -> usize
    ensures { result ≡ min (capacity most_kept kept.now) (length supports.now) }
{
    let rows = table::capacity(kept.len(), table::MOST_KEPT);
    rows.min(supports.len())
}
