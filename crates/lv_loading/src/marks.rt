//! Records of marks.
ghost use Rattle.std.specs.Prelude.{◌≡◌, ◌<◌, ◌&&◌, nat_lt, nat_le, length, slice_index, Ok};
ghost use Rattle.lv_schema.specs.declared.rec.Rec.TheVariants as rec;
ghost use Rattle.lv_loading.specs.Taking.{IsWhole, Takes};

use crate::parts::Parts;

impl Parts {
    /// Whether a view can be marked to a commit: it is in use, and the commit is above its mark and at most the last one.
    fn can_be_marked(&self, view: u32, upto: u64) -> bool
        requires { length self.now.upkeep.kept.points ≡ length self.now.schema.views }
        ensures { result ≡ (nat_lt view (length self.now.schema.views) && (nat_lt (slice_index self.now.upkeep.kept.marks view) upto && nat_le upto self.now.base.number)) }
    {
        view < self.schema.views() && self.upkeep.marked(view) < upto && upto <= self.base.last()
    }

    /// Takes the record of a mark: the view is maintained and marked to the commit. It takes no memory. Cost: linear in the
    /// tasks of the view up to there.
    pub(crate) fn take_mark(&mut self, view: u32, upto: u64) -> bool
        requires kept { view < 256 }
        requires whole { IsWhole self.old }
        ensures { Takes (rec.Mark view upto) self.old self.new (Ok result) }
    {
        if !self.can_be_marked(view, upto) {
            return false;
        }
        self.upkeep.advance(view, upto);
        self.upkeep.mark(view);
        true
    }
}
