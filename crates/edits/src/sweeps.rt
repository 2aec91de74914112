// A change of every row of a table.
ghost use Rattle.std.specs.Prelude.{◌≡◌, length};
ghost use Rattle.std.specs.List.{AllZip};
ghost use Rattle.edits.specs.Sweeps.{Leaves};

/// Makes a change to every row.
pub fn sweep<R, F: Fn(&mut R)>(rows: &mut [R], change: F)
    requires { F.IsAlwaysCallable change }
    ensures each { AllZip (Leaves F.Fn change) rows.old rows.new }
    ensures len { length rows.new ≡ length rows.old }
{
    for row in rows {
        change(row);
    }
}
