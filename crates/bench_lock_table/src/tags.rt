//! A lock's tags, and the rule of a row of them: each actor has one lock, to which it adds tags of
//! its own.

ghost use Rattle.std.specs.Prelude.{◌≡◌, [], ◌∷◌, ◌++◌, OnOk, OnErr};

use lock_row::{NextLocal, RowValue};
use std::alloc::{AllocError, Global};
use std::marker::Model;
use zr_base::Tag;

/// Tags in the order in which they were put.
#[derive(Drop)]
pub struct Tags {
    items: Vec<Tag>,
}

impl Model for Tags {
    ghost use Rattle.std.specs.Prelude.{List};
    ghost use Rattle.zr_base.specs.declared.op.Tag.{Tag};

    ghost Value = { List Tag };

    ghost view = { λ t. t.items.items };
}

impl Tags {
    /// No tags; it takes no memory.
    pub fn new(alloc: Global) -> Tags
        ensures { result ≡ [] }
    {
        Tags {
            items: Vec::new(alloc),
        }
    }

    /// Puts a tag last. On Err nothing changed.
    pub fn push(&mut self, tag: Tag) -> Result<(), AllocError>
        ensures ok { OnOk result (self.new ≡ self.old ++ tag ∷ []) }
        ensures err { OnErr result (self.new ≡ self.old) }
    {
        self.items.push(tag)?;
        Ok(())
    }

    /// The tags in order.
    pub fn as_slice(&self) -> &[Tag]
        ensures { result.now ≡ self.now }
    {
        &self.items
    }
}

/// Names the rule.
pub struct Tagging;

impl RowValue<Tagging> for Tags {
    ghost use Rattle.bench_lock_table.specs.TagRule.{tagging};

    ghost rule = { tagging };
}

/// A taking.
pub struct Took;

impl NextLocal<Tags> for Took {
    ghost use Rattle.bench_lock_table.specs.Tagging.{took};

    ghost next = { took };
}

/// A giving of the tags as they were.
pub struct Gave;

impl NextLocal<Tags> for Gave {
    ghost use Rattle.bench_lock_table.specs.Tagging.{gave};

    ghost next = { gave };
}

/// A giving with the actor's next tag.
pub struct Tagged;

impl NextLocal<Tags> for Tagged {
    ghost use Rattle.bench_lock_table.specs.Tagging.{tagged};

    ghost next = { tagged };
}
