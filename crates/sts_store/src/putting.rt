//! Puts a frame back in the place of a task's.

ghost use Rattle.std.specs.Prelude.{◌≡◌, true};
ghost use Rattle.laws_live.specs.Reading.{lives_in, with_live_frame};
ghost use Rattle.sts_store.specs.Parts.{frame_of, live_of, unseen_of};

use crate::store::Store;
use sts_frames::write_frame;
use sts_model::Frame;

impl Store {
    /// Replaces the frame of a living task. The new frame has the same structure list: local
    /// instructions keep that.
    pub fn put_frame(&mut self, t: u32, frame: &Frame)
        requires lives { lives_in (live_of self.old) t ≡ true }
        requires entries { frame.now.entries ≡ (frame_of self.old t).entries }
        ensures live { live_of self.new ≡ with_live_frame (live_of self.old) t frame.now }
        ensures unseen { unseen_of self.new ≡ unseen_of self.old }
    {
        write_frame(&mut self.frames.at(t as usize).frame, frame);
    }
}
