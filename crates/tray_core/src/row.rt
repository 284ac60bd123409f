// A row of tags of one kind, and which of them are on the tray.
ghost use Rattle.std.specs.Prelude.{◌≡◌, ℕ, ◌+◌, ◌<◌, ◌≤◌, map, max, length, vec_len};

use crate::sounds::Sounds;
use crate::walking::{hear_row, power_row, power_tag};
use kinds::kind::Kind;
use typeb::received::Received;

// Tags of one kind, 32 at most, and which of them are on the tray.
// Loading cannot fail and has no memory for pairs, so the flags stand beside the tags that were given in one Vec.
#[derive(Drop)]
pub(crate) struct Row<K> {
    tags: Vec<K>,
    present: [bool; 32],
    ghost short: { vec_len tags ≤ 32 },
}

// Tags of which one row is too long.
#[derive(Drop)]
pub(crate) struct TooLong<F, B> {
    pub(crate) front: Vec<F>,
    pub(crate) back: Vec<B>,
    ghost long: { 32 < max (vec_len front) (vec_len back) },
}

impl<K: Kind> Row<K> {
    ghost use Rattle.typeb.specs.Receives.{on_air};
    ghost use Rattle.tray_core.specs.Rows.{row_powers, row_hears, row_sounds, change_at, moved};
    ghost use Rattle.tray_core.specs.Sounds.{meet};
    ghost use Rattle.tray_core.specs.Trays.{present};
    ghost use Rattle.tray_core.specs.Views.{row_of, sounds_in, how_many};

    // All tags are on the tray.
    pub(crate) fn new(tags: Vec<K>) -> Row<K>
        requires { vec_len tags ≤ 32 }
        ensures { row_of K.means result ≡ map present (map K.means tags.items) }
    {
        Row {
            tags,
            present: [true; 32],
        }
    }

    #[tactic(auto, using(crate::proofs::Lined::long_row))]
    pub(crate) fn len(&self) -> usize
        ensures result { result ≡ length (row_of K.means self.now) }
        ensures short { result ≤ 32 }
    {
        self.tags.len()
    }

    // The tags on the tray gain power, or lose it.
    pub(crate) fn power(&mut self, on: bool)
        ensures { row_of K.means self.new ≡ row_powers K.acts on (row_of K.means self.old) }
    {
        power_row(&mut self.tags, &self.present, on);
    }

    // Every tag on the tray hears a frame. What was heard before goes in, and comes out with the row's replies.
    pub(crate) fn hear(&mut self, frame: &Received<'_>, before: Sounds) -> Sounds
        requires { how_many before ≤ 32 }
        ensures after { row_of K.means self.new ≡ row_hears K.acts (on_air frame.now) (row_of K.means self.old) }
        ensures sounds { sounds_in result ≡ meet (sounds_in before) (row_sounds K.acts (on_air frame.now) (row_of K.means self.old)) }
        ensures count { how_many result ≤ how_many before + 32 }
    {
        hear_row(&mut self.tags, &self.present, frame, before)
    }

    // A tag is put on the tray or lifted off it: where the field is on it gains or loses power.
    // One that is there already, or gone already, stays as it is.
    #[tactic(auto, using(crate::proofs::Lined::long_row))]
    pub(crate) fn move_tag(&mut self, n: usize, here: bool, field: bool)
        requires { n < length (row_of K.means self.old) }
        ensures { row_of K.means self.new ≡ change_at n (moved K.acts here field) (row_of K.means self.old) }
    {
        let mut tag = self.tags[n];
        if field && self.present[n] != here {
            power_tag(&mut tag, here);
        }
        self.tags[n] = tag;
        self.present[n] = here;
    }
}
