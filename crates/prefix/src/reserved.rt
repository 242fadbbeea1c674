// Whether a prefix touches a reserved block.
ghost use Rattle.std.specs.Prelude.{◌≡◌};
ghost use Rattle.prefix.specs.Form.{block};
ghost use Rattle.prefix.specs.Table.{row_touches, touches};

use crate::family::Family;
use crate::row::Row;

// Whether a prefix overlaps the block of a row; a row that is no prefix touches nothing.
fn is_touched<F: Family>(row: &Row<F::Address>, p: &F::Prefix) -> bool
    ensures { result ≡ row_touches F.WIDTH F.form.number (block F.form p.now) row.now }
{
    let mut q = *p;
    F::make(row.address, u32::from(row.length), &mut q).is_ok() && F::overlaps(&q, p)
}

// Whether a prefix overlaps a reserved block of its family.
pub fn is_reserved<F: Family>(p: &F::Prefix) -> bool
    ensures { result ≡ touches F.WIDTH F.form.number (block F.form p.now) F.rows }
{
    F::reserved().iter().any(|row| is_touched::<F>(row, p))
}
