// A row of tags of one kind, tag by tag: each tag on the tray is copied out, told and stored back.
ghost use Rattle.std.specs.Prelude.{◌≡◌, ◌+◌, ◌≤◌, map, length};
ghost use Rattle.typeb.specs.Receives.{on_air};
ghost use Rattle.tray_core.specs.Rows.{powers, row_powers, row_hears, row_sounds};
ghost use Rattle.tray_core.specs.Sounds.{meet};
ghost use Rattle.tray_core.specs.Views.{posts, sounds_in, how_many};

use crate::hearing::tell_tag;
use crate::sounds::Sounds;
use kinds::kind::Kind;
use typeb::received::Received;

// Every tag on the tray hears a frame. What was heard before goes in, and comes out with the row's replies.
pub(crate) fn hear_row<K: Kind>(
    tags: &mut [K],
    present: &[bool; 32],
    frame: &Received<'_>,
    before: Sounds,
) -> Sounds
    requires { (length tags.old ≤ 32) × (how_many before ≤ 32) }
    ensures after { posts present.now (map K.means tags.new) ≡ row_hears K.acts (on_air frame.now) (posts present.now (map K.means tags.old)) }
    ensures sounds { sounds_in result ≡ meet (sounds_in before) (row_sounds K.acts (on_air frame.now) (posts present.now (map K.means tags.old))) }
    ensures count { how_many result ≤ how_many before + 32 }
{
    let mut heard = before;
    for i in 0..tags.len() {
        if present[i] {
            let mut tag = tags[i];
            tell_tag(&mut tag, frame, &mut heard);
            tags[i] = tag;
        }
    }
    heard
}

// A tag gains power, or loses it.
pub(crate) fn power_tag<K: Kind>(tag: &mut K, on: bool)
    ensures { K.means tag.new ≡ powers K.acts on (K.means tag.old) }
{
    if on {
        tag.gain_power();
    } else {
        tag.lose_power();
    }
}

// Every tag on the tray gains power, or loses it. A walk of its own: the contract of one walk over a step that is passed in would
// have to follow what the step gathers from tag to tag.
pub(crate) fn power_row<K: Kind>(tags: &mut [K], present: &[bool; 32], on: bool)
    requires { length tags.old ≤ 32 }
    ensures { posts present.now (map K.means tags.new) ≡ row_powers K.acts on (posts present.now (map K.means tags.old)) }
{
    for i in 0..tags.len() {
        if present[i] {
            let mut tag = tags[i];
            power_tag(&mut tag, on);
            tags[i] = tag;
        }
    }
}
