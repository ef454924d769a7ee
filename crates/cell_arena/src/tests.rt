ghost use Rattle.std.specs.Prelude.{◌≡◌, IfOk};
ghost use Rattle.cell_arena.specs.Chains.{HasAllCells};

use crate::{Cell, Cells, Chain, join, split};
use std::alloc::AllocError;
use std::test::Fail;
use std::thread;

fn crosses<T: Send + Sync>(value: T) -> T
    ensures { result ≡ value }
{
    value
}

fn cut(rt: &HostRuntime) -> Result<Cells, Fail>
    ensures { IfOk result HasAllCells }
{
    let chain = crosses(Chain::new(rt.alloc(), 2)?);
    match split(rt.alloc(), chain, 1168) {
        Ok(cells) => Ok(crosses(cells)),
        Err(_) => Err(Fail::from(AllocError)),
    }
}

fn take(rt: &HostRuntime) -> Result<Vec<Cell>, Fail> {
    let mut cells = cut(rt)?;
    let mut out = Vec::with_capacity(rt.alloc(), 7)?;
    for _ in 0..8 {
        match cells.pop() {
            Some(cell) => out.push(crosses(cell))?,
            None => {}
        }
    }
    out.reverse();
    Ok(out)
}

fn is_blank(cell: &Cell) -> bool {
    let (first, second) = cell.parts();
    first.iter().all(|byte| *byte == 0) && second.iter().all(|byte| *byte == 0)
}

#[test]
fn a_cell_over_a_border(rt: HostRuntime) -> Result<(), Fail> {
    let mut out = take(&rt)?;
    assert_eq!(rt; out.len(), 7);
    let cell = &mut out[3];
    assert_eq!(rt; (cell.number(), cell.size()), (3, 1168));
    let (first, second) = cell.parts();
    assert_eq!(rt; (first.len(), second.len()), (592, 576));
    cell.write(591, &[1, 2]);
    let (first, second) = cell.parts();
    assert_eq!(rt; (first.last(), second.first()), (Some(&1), Some(&2)));
    assert!(rt; is_blank(&out[2]) && is_blank(&out[4]));
    Ok(())
}

#[test]
fn a_cell_on_another_thread(rt: HostRuntime) -> Result<(), Fail> {
    let mut out = take(&rt)?;
    assert_eq!(rt; out.len(), 7);
    let mut lent = out.swap_remove(3);
    assert_eq!(rt; lent.size(), 1168);
    lent.write(591, &[7, 8]);
    let child = match thread::spawn(&rt, move || {
        let (first, second) = lent.parts();
        (first.last().copied(), second.first().copied())
    }) {
        Ok(child) => child,
        Err(_) => return Err(Fail::from(AllocError)),
    };
    let other = &mut out[2];
    assert_eq!(rt; other.size(), 1168);
    other.write(0, &[9]);
    assert_eq!(rt; child.join(&rt), (Some(7), Some(8)));
    Ok(())
}

#[test]
fn a_chain_comes_back(rt: HostRuntime) -> Result<(), Fail> {
    let cells = cut(&rt)?;
    assert_eq!(rt; join(cells).frames(), 2);
    Ok(())
}
