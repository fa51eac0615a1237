// Rows of a table in order.
ghost use Rattle.std.specs.Prelude.{◌≡◌, ◌≤◌, ◌<◌, ◌+◌, length, option_copied, vec_capacity, vec_len};
ghost use Rattle.std.specs.List.Sorted.{IsSearchInRange};
ghost use Rattle.vdr_alerts.specs.Rows.{row_at, with_row};

/// The row at a place, if it stands there.
pub fn found<R>(rows: &[R], place: Result<usize, usize>) -> Option<&R>
    ensures { option_copied result ≡ row_at place rows.now }
{
    match place {
        Ok(at) => rows.get(at),
        Err(_) => None,
    }
}

/// Puts a row there. There is room for it.
pub fn put_row<R: Drop>(rows: &mut Vec<R>, place: Result<usize, usize>, row: R)
    requires place { IsSearchInRange place (length rows.old.items) }
    requires room { vec_len rows.old < vec_capacity rows.old }
    ensures rows { rows.new.items ≡ with_row place rows.old.items row }
    ensures more { vec_len rows.new ≤ vec_len rows.old + 1 }
    ensures capacity { vec_capacity rows.old ≤ vec_capacity rows.new }
{
    match place {
        Ok(at) => rows[at] = row,
        Err(at) => {
            let _ = rows.insert(at, row);
        }
    }
}
