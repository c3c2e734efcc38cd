ghost use Rattle.std.specs.Prelude.{◌≡◌, ◌≤◌, ◌+◌, false, IsTrue};
ghost use Rattle.dali_base.specs.Limits.{most_rank};
ghost use Rattle.dali_queue.specs.Queue.{is_queued, ranked};
ghost use Rattle.dali_queue.specs.Groups.{same_group, group_size, linked, MakesOne};
ghost use Rattle.dali_queue.specs.Limits.{most_linked};

use super::Queue;
use dali_base::Name;

impl Queue {
    /// Makes one group of the two groups of these instructions. Both are queued, in two groups that together have at
    /// most 8 instructions.
    pub fn link(&mut self, first: Name, second: Name)
        requires first { IsTrue (is_queued self.old.queue.waiting first) }
        requires second { IsTrue (is_queued self.old.queue.waiting second) }
        requires apart { same_group self.old.queue.waiting first second ≡ false }
        requires fits { group_size self.old.queue.waiting first + group_size self.old.queue.waiting second ≤ most_linked }
        ensures queue { self.new.queue ≡ record self.old.queue { waiting = linked self.old.queue.waiting first second } }
        ensures one { MakesOne self.old.queue.waiting self.new.queue.waiting first second }
        ensures room { self.new.spare ≡ self.old.spare }
    {
        let Some(to) = self.entries.group(first) else {
            return;
        };
        let Some(from) = self.entries.group(second) else {
            return;
        };
        self.entries.regroup(from, to);
    }

    /// Whether both are queued and in one group.
    pub fn same_group(&self, first: Name, second: Name) -> bool
        ensures { result ≡ same_group self.now.queue.waiting first second }
    {
        match (self.entries.group(first), self.entries.group(second)) {
            (Some(one), Some(other)) => one == other,
            _ => false,
        }
    }

    /// The number of instructions in the group of the instruction with this id, at most 8. 0 where it isn't queued.
    pub fn group_size(&self, id: Name) -> u32
        ensures size { result ≡ group_size self.now.queue.waiting id }
        ensures limit { result ≤ most_linked }
    {
        match self.entries.group(id) {
            Some(group) => self.entries.count_in(group) as u32,
            None => 0,
        }
    }

    /// Sets the rank, 1 to 16, of the queued instruction with this id.
    pub fn set_rank(&mut self, id: Name, rank: u8)
        requires queued { IsTrue (is_queued self.old.queue.waiting id) }
        requires from_one { 1 ≤ rank }
        requires to_limit { rank ≤ most_rank }
        ensures queue { self.new.queue ≡ record self.old.queue { waiting = ranked self.old.queue.waiting id rank } }
        ensures room { self.new.spare ≡ self.old.spare }
    {
        self.entries.set_rank(id, rank);
    }
}
