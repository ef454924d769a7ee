//! The actors of a phase, and what is known of their operations that are over.

ghost use Rattle.std.specs.Prelude.{◌≡◌, Bool, Some, IsSome};
ghost use Rattle.call_history.specs.Histories.{ends_each, told_each};
ghost use Rattle.page_steps.specs.Steps.{Terms};
ghost use Rattle.zr_core.specs.States.{ends_shown, sectors_shown, of_op, HasEnded, AreFit, AreKept};

use actor_steps::Worker;
use backing_dev::Backing;
use zr_base::OpEnd;

/// The actors of a phase, and its time.
#[derive(Drop)]
pub struct Phase<D: Backing> {
    pub(crate) clock: u64,
    pub(crate) workers: Vec<Worker<D>>,
}

impl<D: Backing> Phase<D> {
    // How an operation has ended so far.
    fn end_so_far(&self, actor: u32, op: u32) -> &OpEnd
        requires { IsSome (of_op (ends_shown self.now.workers.items) actor op) }
        ensures { of_op (ends_shown self.now.workers.items) actor op ≡ Some result.now }
    {
        &self.workers[actor as usize].replies[op as usize].end
    }

    // The sectors that are told of an operation so far: those of its pieces that were carried out where
    // the device failed, and none where it was refused else.
    fn sectors_so_far(&self, actor: u32, op: u32) -> &[[u8; 512]]
        requires { IsSome (of_op (sectors_shown self.now.workers.items) actor op) }
        ensures { of_op (sectors_shown self.now.workers.items) actor op ≡ Some result.now }
    {
        let reply = &self.workers[actor as usize].replies[op as usize];
        match reply.end {
            OpEnd::Ok | OpEnd::Eio { .. } => &reply.sectors,
            _ => &[],
        }
    }

    /// How an operation that is over ended.
    pub fn end(&self, actor: u32, op: u32) -> &OpEnd
        requires there { IsSome (of_op (ends_shown self.now.workers.items) actor op) }
        requires over { HasEnded self.now.workers.items actor op }
        ensures end { of_op (ends_shown self.now.workers.items) actor op ≡ Some result.now }
        ensures by_history { (t : Terms) (backed : Bool) (actors : _) (dones : _)
            → AreFit t backed actors self.now.workers.items
            → AreKept backed actors self.now.workers.items dones
            → of_op (ends_each backed actors dones) actor op ≡ Some result.now }
    {
        self.end_so_far(actor, op)
    }

    /// The sectors that an operation that is over has read, of 512 bytes each: where the device
    /// failed, those of the pieces before. One that was refused else has none.
    pub fn sectors(&self, actor: u32, op: u32) -> &[[u8; 512]]
        requires there { IsSome (of_op (sectors_shown self.now.workers.items) actor op) }
        requires over { HasEnded self.now.workers.items actor op }
        ensures sectors { of_op (sectors_shown self.now.workers.items) actor op ≡ Some result.now }
        ensures by_history { (t : Terms) (backed : Bool) (actors : _) (dones : _)
            → AreFit t backed actors self.now.workers.items
            → AreKept backed actors self.now.workers.items dones
            → of_op (told_each actors dones) actor op ≡ Some result.now }
    {
        self.sectors_so_far(actor, op)
    }
}
