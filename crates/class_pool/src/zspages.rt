//! The zspages of one class by their ids. A tournament of ranks finds the one that takes the next
//! object, and the least free id, in a time that grows with the logarithm of their number; a second
//! one finds the zspage that gives an object up when objects are moved together.

ghost use Rattle.std.specs.Prelude.{◌≡◌, ◌+◌, ◌-◌, ◌*◌, ◌/◌, ◌<◌, ◌≤◌, ◌^◌, ◌++◌, ◌∷◌, ℕ, List, [], length, Some, None, IfOk, OnOk, OnErr, IsTrue, true, false, replicate, slice_set};
ghost use Rattle.zspage.specs.Cells.{CellState, IsStored, IsCellAt, Fits, UsedCell, used_of, entry, IsLowestFree, IsHome, IsOut};
ghost use Rattle.class_pool.specs.Zspages.{Cells, used_in, HasRoom, IsFullest, IsLeastAbsent, put_at, rank_of, source_rank};
ghost use Rattle.class_pool.specs.Rows.{row_at, rows};
ghost use Rattle.class_pool.specs.Pool.{new_use};
ghost use Rattle.zs_plan.specs.Plan.{IsFuller, IsEmptier, IsPartial, HasMovable, IsBest};

use std::alloc::{AllocError, Global};
use std::marker::Model;
use tournament::Tournament;
use zr_base::Handle;
use zs_plan::Row;
use zspage::{Cell, Zspage};

mod moves;

/// The rank of a zspage without room.
const FULL: u32 = 0;

/// The rank of an id that no zspage has.
const ABSENT: u32 = 1;

/// The rank of a zspage with room, with this added to its used cells.
const ROOM: u32 = 2;

/// The rank as a source of a zspage that can give no object, and of an id that no zspage has.
const STAYS: u32 = 0;

/// The zspages of one class.
#[derive(Drop)]
pub struct Zspages {
    size: u16,
    chain: u16,
    per: u16,
    items: Vec<Option<Zspage>>,
    ranks: Tournament,
    sources: Tournament,
}

impl Model for Zspages {
    ghost use Rattle.std.specs.Prelude.{map};
    ghost use Rattle.class_pool.specs.Zspages.{ZspagesState, cells_of, AreZspages};

    ghost Value = { ZspagesState };

    ghost view = { λ z. record {
      size = z.size;
      chain = z.chain;
      per = z.per;
      zspages = map cells_of z.items.items;
    } };

    ghost invariant = { λ z. AreZspages z.size z.chain z.per z.items.items z.ranks z.sources };
}

impl Zspages {
    /// No zspages.
    pub fn new(alloc: Global, size: u32, chain: u32, per: u32) -> Zspages
        requires small { 32 ≤ size }
        requires large { size ≤ 4096 }
        requires some { 1 ≤ chain }
        requires few { chain ≤ 16 }
        requires cells { per ≡ chain * 4096 / size }
        ensures { result ≡ record { size = size; chain = chain; per = per; zspages = [] } }
    {
        Zspages {
            size: size as u16,
            chain: chain as u16,
            per: per as u16,
            items: Vec::new(alloc),
            ranks: Tournament::new(alloc),
            sources: Tournament::new(alloc),
        }
    }

    /// The bytes of a cell.
    pub fn size(&self) -> u32
        ensures { result ≡ self.now.size }
    {
        self.size as u32
    }

    /// The frames of a chain.
    pub fn chain(&self) -> u32
        ensures { result ≡ self.now.chain }
    {
        self.chain as u32
    }

    /// The cells of a zspage.
    pub fn per(&self) -> u32
        ensures { result ≡ self.now.per }
    {
        self.per as u32
    }

    /// The number of ids that are or were in use.
    pub fn len(&self) -> usize
        ensures len { result ≡ length self.now.zspages }
        ensures short { result < 2 ^ 32 }
    {
        let _ = &self.size;
        self.items.len()
    }

    /// The used cells of the zspage with an id, 0 where there is none.
    pub fn used(&self, id: usize) -> u32
        requires { id < length self.now.zspages }
        ensures used { result ≡ used_in (entry self.now.zspages id) }
        ensures most { result ≤ self.now.per }
    {
        match &self.items[id] {
            Some(zspage) => zspage.used(),
            None => 0,
        }
    }

    /// Whether some zspage has a free cell.
    pub fn has_room(&self) -> bool
        ensures room { IsTrue result → (k : ℕ) × HasRoom (entry self.now.zspages k) }
        ensures none { result ≡ false → (k : ℕ) → HasRoom (entry self.now.zspages k) → ⊥ }
    {
        if self.items.is_empty() {
            return false;
        }
        self.ranks.rank(self.ranks.winner()) >= ROOM
    }

    /// The zspage that takes the next object.
    pub fn fullest(&self) -> u32
        requires { (k : ℕ) × HasRoom (entry self.now.zspages k) }
        ensures { IsFullest self.now.zspages result }
    {
        self.ranks.winner() as u32
    }

    /// The id of the next zspage.
    pub fn least_absent(&self) -> u32
        requires { (k : ℕ) → HasRoom (entry self.now.zspages k) → ⊥ }
        ensures { IsLeastAbsent self.now.zspages result }
    {
        if self.items.is_empty() {
            return 0;
        }
        let winner = self.ranks.winner();
        if self.ranks.rank(winner) == ABSENT {
            winner as u32
        } else {
            self.items.len() as u32
        }
    }

    /// What a plan reads of the zspage with an id, where there is one.
    fn row(&self, id: usize) -> Option<Row>
        requires { id < length self.now.zspages }
        ensures { result ≡ row_at id (entry self.now.zspages id) }
    {
        match &self.items[id] {
            Some(zspage) => Some(Row {
                id: id as u32,
                used: zspage.used(),
                movable: zspage.at_home() > 0,
            }),
            None => None,
        }
    }

    /// The fullest zspage that is neither empty nor full.
    pub fn destination(&self) -> Option<Row>
        ensures { IsBest IsFuller (IsPartial self.now.per) (rows self.now.zspages) result }
    {
        if self.items.is_empty() {
            return None;
        }
        let winner = self.ranks.winner();
        if self.ranks.rank(winner) <= ROOM {
            return None;
        }
        self.row(winner)
    }

    /// The emptiest zspage that is not full and has a used cell at home.
    pub fn source(&self) -> Option<Row>
        ensures { IsBest IsEmptier (HasMovable self.now.per) (rows self.now.zspages) result }
    {
        if self.items.is_empty() {
            return None;
        }
        let last = self.sources.last_winner();
        if self.sources.rank(last) == STAYS {
            return None;
        }
        self.row(last)
    }

    /// Makes a zspage under an id that none has.
    pub fn add(&mut self, alloc: Global, id: u32) -> Result<(), AllocError>
        requires absent { IsLeastAbsent self.old.zspages id }
        requires short { id + 1 < 2 ^ 32 }
        ensures ok { OnOk result (self.new ≡ record self.old {
          zspages = put_at self.old.zspages id (Some (replicate self.old.per None));
        }) }
        ensures err { OnErr result (self.new ≡ self.old) }
    {
        let zspage = Zspage::new(alloc, id, self.size as u32, self.chain as u32)?;
        let rank = rank(&zspage);
        let id = id as usize;
        if id < self.items.len() {
            self.items[id] = Some(zspage);
            self.ranks.set(id, rank);
            self.sources.set(id, STAYS);
            return Ok(());
        }
        self.items.push(Some(zspage))?;
        if let Err(full) = push_both(&mut self.ranks, rank, &mut self.sources, STAYS) {
            self.items.pop();
            return Err(full);
        }
        Ok(())
    }

    /// Puts an object into the lowest free cell of a zspage, and gives the cell's number.
    pub fn take_cell(&mut self, id: u32, handle: Handle, bytes: &[u8]) -> u32
        requires room { HasRoom (entry self.old.zspages id) }
        requires fits { Fits (length bytes.now) self.old.size }
        ensures { (cells : Cells) × (cell : CellState)
            × (entry self.old.zspages id ≡ Some cells) × IsLowestFree cells result
            × IsStored handle.0 bytes.now cell × IsCellAt self.old.size result cell
            × (self.new ≡ record self.old {
              zspages = slice_set self.old.zspages id
                  (Some (slice_set cells result (Some (new_use handle.0 bytes.now cell))));
            }) }
    {
        let id = id as usize;
        let slot = &mut self.items[id];
        match slot {
            Some(zspage) => {
                let cell = zspage.take_cell(handle, bytes);
                let rank = rank(zspage);
                let source = source(zspage);
                self.ranks.set(id, rank);
                self.sources.set(id, source);
                cell
            }
            None => unreachable!(),
        }
    }

    /// Takes the object of a used cell away, and gives the zspage up where that was its last. Tells
    /// whether it was.
    pub fn put_cell(&mut self, id: u32, ix: u32) -> bool
        requires { (cells : Cells) × (entry self.old.zspages id ≡ Some cells) × IsHome cells ix }
        ensures gone { (cells : Cells) → entry self.old.zspages id ≡ Some cells → result ≡ true
            → (used_of cells ≡ 1) × (self.new ≡ record self.old {
              zspages =
                  slice_set self.old.zspages id None;
            }) }
        ensures kept { (cells : Cells) → entry self.old.zspages id ≡ Some cells → result ≡ false
            → (2 ≤ used_of cells) × (self.new ≡ record self.old {
              zspages = slice_set self.old.zspages id (Some (slice_set cells ix None));
            }) }
    {
        let id = id as usize;
        let slot = &mut self.items[id];
        match slot {
            Some(zspage) => {
                zspage.put_cell(ix);
                if zspage.is_empty() {
                    self.items[id] = None;
                    self.ranks.set(id, ABSENT);
                    self.sources.set(id, STAYS);
                    return true;
                }
                let rank = rank(zspage);
                let source = source(zspage);
                self.ranks.set(id, rank);
                self.sources.set(id, source);
                false
            }
            None => unreachable!(),
        }
    }

    /// Lends a used cell.
    pub fn lend(&mut self, id: u32, ix: u32) -> Cell
        requires { (cells : Cells) × (entry self.old.zspages id ≡ Some cells) × IsHome cells ix }
        ensures { (cells : Cells) (u : UsedCell) → entry self.old.zspages id ≡ Some cells
            → entry cells ix ≡ Some u
            → (u.cell ≡ result) × IsStored u.handle u.bytes result
            × IsCellAt self.old.size ix result
            × (self.new ≡ record self.old {
              zspages = slice_set self.old.zspages id
                  (Some (slice_set cells ix (Some (record u { out = true }))));
            }) }
    {
        let id = id as usize;
        let slot = &mut self.items[id];
        match slot {
            Some(zspage) => {
                let cell = zspage.lend(ix);
                let source = source(zspage);
                self.sources.set(id, source);
                cell
            }
            None => unreachable!(),
        }
    }

    /// Takes the cell that was lent back.
    pub fn back(&mut self, id: u32, ix: u32, cell: Cell)
        requires { (cells : Cells) × (entry self.old.zspages id ≡ Some cells)
            × IsOut cells ix cell }
        ensures { (cells : Cells) (u : UsedCell) → entry self.old.zspages id ≡ Some cells
            → entry cells ix ≡ Some u
            → self.new ≡ record self.old {
              zspages = slice_set self.old.zspages id
                  (Some (slice_set cells ix (Some (record u { out = false }))));
            } }
    {
        let id = id as usize;
        let slot = &mut self.items[id];
        match slot {
            Some(zspage) => {
                zspage.back(ix, cell);
                let source = source(zspage);
                self.sources.set(id, source);
            }
            None => unreachable!(),
        }
    }
}

/// The rank of a zspage.
fn rank(zspage: &Zspage) -> u32
    requires { length zspage.now.cells < 2 ^ 32 - 2 }
    ensures { result ≡ rank_of (Some zspage.now.cells) }
{
    if zspage.used() == zspage.per() {
        FULL
    } else {
        zspage.used() + ROOM
    }
}

/// The rank of a zspage as a source: its free cells, where a used one is at home.
fn source(zspage: &Zspage) -> u32
    ensures { result ≡ source_rank (Some zspage.now.cells) }
{
    if zspage.at_home() == 0 {
        STAYS
    } else {
        zspage.per() - zspage.used()
    }
}

/// One more place in two lists of ranks, or in none.
fn push_both(
    ranks: &mut Tournament,
    rank: u32,
    sources: &mut Tournament,
    source: u32,
) -> Result<(), AllocError>
    ensures ranks { OnOk result (ranks.new ≡ ranks.old ++ rank ∷ []) }
    ensures sources { OnOk result (sources.new ≡ sources.old ++ source ∷ []) }
    ensures ranks_err { OnErr result (ranks.new ≡ ranks.old) }
    ensures sources_err { OnErr result (sources.new ≡ sources.old) }
{
    ranks.push(rank)?;
    if let Err(full) = sources.push(source) {
        ranks.pop();
        return Err(full);
    }
    Ok(())
}
