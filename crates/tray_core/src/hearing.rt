// One tag hears a frame, and its reply joins what was heard so far.
ghost use Rattle.std.specs.Prelude.{◌≡◌, ◌+◌, ◌≤◌};
ghost use Rattle.typeb.specs.Receives.{on_air};
ghost use Rattle.tray_core.specs.Rows.{hearing};
ghost use Rattle.tray_core.specs.Sounds.{meet, voice};
ghost use Rattle.tray_core.specs.Views.{sounds_in, how_many};

use crate::sounds::Sounds;
use kinds::kind::Kind;
use typeb::message::Message;
use typeb::received::Received;

// Two things heard at once. How many can have answered depends on how many tags were told, so no type of a sound can bound it.
pub(crate) fn meet_sounds(a: Sounds, b: Sounds) -> Sounds
    requires { (how_many a ≤ 64) × (how_many b ≤ 64) }
    ensures result { sounds_in result ≡ meet (sounds_in a) (sounds_in b) }
    ensures count { how_many result ≡ how_many a + how_many b }
{
    match (a, b) {
        (Sounds::Silence, _) => b,
        (_, Sounds::Silence) => a,
        (Sounds::Reply(_), Sounds::Reply(_)) => Sounds::Clash(2),
        (Sounds::Reply(_), Sounds::Clash(n)) => Sounds::Clash(n + 1),
        (Sounds::Clash(m), Sounds::Reply(_)) => Sounds::Clash(m + 1),
        (Sounds::Clash(m), Sounds::Clash(n)) => Sounds::Clash(m + n),
    }
}

// One tag hears a frame; its reply, if it has one, joins what was heard so far.
pub(crate) fn tell_tag<K: Kind>(tag: &mut K, frame: &Received<'_>, heard: &mut Sounds)
    requires { how_many heard.old ≤ 64 }
    ensures after { K.means tag.new ≡ hearing K.acts (on_air frame.now) (K.means tag.old) }
    ensures sounds { sounds_in heard.new ≡ meet (sounds_in heard.old) (voice (K.acts.hears (on_air frame.now) (K.means tag.old)).reply) }
    ensures count { how_many heard.new ≤ how_many heard.old + 1 }
{
    let mut bytes = [0u8; 16];
    let told = tag.hear(frame, &mut bytes);
    if told.len > 0 {
        *heard = meet_sounds(*heard, Sounds::Reply(Message::front_of(bytes, told.len)));
    }
}
