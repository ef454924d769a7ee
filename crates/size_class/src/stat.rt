//! What is told of a pool: how many cells are used, and how full its zspages are.

ghost use Rattle.std.specs.Prelude.{◌≡◌, ◌<◌, ◌≤◌, ◌↔◌};
ghost use Rattle.size_class.specs.Groups.{group_of};

/// The statistics of one class's pool.
#[derive(Clone, Copy, PartialEq, Eq, Debug)]
pub struct ClassStat {
    /// The class's number, 0 to 254.
    pub class: u8,
    /// The bytes of a cell.
    pub size: u32,
    /// The frames of a chain.
    pub chain: u32,
    /// The cells of a chain.
    pub per: u32,
    /// The used cells of all zspages.
    pub used: u32,
    /// The zspages.
    pub zspages: u32,
    /// The zspages in the fullness groups 1 to 11.
    pub groups: [u32; 11],
}

/// The fullness group of a zspage that has `per` cells, as zsmalloc's fullness groups: 0 where none
/// is used,
/// 11 where all are, and 1 to 10 by tenths between.
pub fn group(used: u32, per: u32) -> u8
    requires some { 1 ≤ per }
    requires within { used ≤ per }
    requires few { per ≤ 4096 }
    ensures value { result ≡ group_of used per }
    ensures empty { (result ≡ 0) ↔ (used ≡ 0) }
    ensures full { (result ≡ 11) ↔ (used ≡ per) × (1 ≤ used) }
    ensures bound { result ≤ 11 }
{
    if used == 0 {
        0
    } else if used == per {
        11
    } else {
        (100 * used / per / 10 + 1) as u8
    }
}
