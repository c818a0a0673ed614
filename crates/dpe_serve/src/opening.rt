//! The doors and entropies of a house: opened in order, and handed back in order.
ghost use Rattle.std.specs.Prelude.{◌≡◌, ◌+◌, ◌≤◌, ◌<◌, [], ◌∷◌, ◌++◌, length, map, IfOk, IfErr, OnOk, Some, None, vec_len, vec_capacity};
ghost use Rattle.std.specs.List.{AllByRecursion};
ghost use Rattle.dpe_io.specs.Tells.{entrance};
ghost use Rattle.dpe_serve.specs.Lending.{ReturnsAll, PlacedFrom};
ghost use Rattle.dpe_serve.specs.Openings.{OpensPost, OpensPosts, OpensNoPost, OpensNoPosts, IsNewPost, locality_of};
ghost use Rattle.dpe_serve.specs.Setting.{texts};
ghost use Rattle.dpe_serve.specs.Words.{SpellsIts, door_of};

use crate::crew::{Post, take_first};
use crate::setting::{DoorWord, read_door};
use dpe_connections::{Room, Tally};
use dpe_io::{Failed, House};

// Opens an entropy, and then the door. Where the door fails, the entropy comes back.
fn open_post<H: House>(
    house: &mut H,
    word: DoorWord<'_>,
    room: Room,
) -> Result<Post<H::Door, H::Entropy>, Option<H::Entropy>>
    ensures opens { IfOk result (OpensPost (H.doors house.old) (H.entropies house.old) (H.doors house.new) (H.entropies house.new)) }
    ensures fresh { IfOk result (IsNewPost (entrance H.Door.Door) H.Entropy.faults) }
    ensures locality { IfOk result (λ post. post.locality ≡ word.entry.locality) }
    ensures fails { IfErr result (OpensNoPost H.Entropy.faults
        (H.doors house.old) (H.entropies house.old) (H.doors house.new) (H.entropies house.new)) }
    ensures seeds { H.seeds house.new ≡ H.seeds house.old }
    ensures journals { H.journals house.new ≡ H.journals house.old }
{
    let entropy = match house.entropy() {
        Ok(entropy) => entropy,
        Err(Failed) => return Err(None),
    };
    let door = match house.door(word.path) {
        Ok(door) => door,
        Err(Failed) => return Err(Some(entropy)),
    };
    Ok(Post {
        door,
        entropy,
        locality: word.locality,
        room,
        tally: Tally::new(),
    })
}

/// Opens an entropy and a door for each word, in order. Where an opening fails it ends; the entropy that was then opened
/// without its door comes back.
pub(crate) fn open_posts<H: House>(
    house: &mut H,
    words: &[&str],
    rooms: &mut Vec<Room>,
    posts: &mut Vec<Post<H::Door, H::Entropy>>,
) -> Result<(), Option<H::Entropy>>
    requires words { AllByRecursion SpellsIts (texts words.now) }
    requires rooms { length words.now ≤ vec_len rooms.old }
    requires none { posts.old.items ≡ [] }
    requires room { length words.now ≤ vec_capacity posts.old }
    ensures opens { OnOk result (OpensPosts (H.doors house.old) (H.entropies house.old) posts.new.items
        (H.doors house.new) (H.entropies house.new)) }
    ensures fails { IfErr result (OpensNoPosts H.Entropy.faults (H.doors house.old) (H.entropies house.old) posts.new.items
        (H.doors house.new) (H.entropies house.new)) }
    ensures fresh { AllByRecursion (IsNewPost (entrance H.Door.Door) H.Entropy.faults) posts.new.items }
    ensures localities { OnOk result (map locality_of posts.new.items ≡ map (λ w. (door_of w).locality) (texts words.now)) }
    ensures fewer { IfErr result (λ _. vec_len posts.new < length words.now) }
    ensures capacity { vec_capacity posts.new ≡ vec_capacity posts.old }
    ensures seeds { H.seeds house.new ≡ H.seeds house.old }
    ensures journals { H.journals house.new ≡ H.journals house.old }
{
    for word in words {
        let Some(door) = read_door(word) else {
            unreachable!()
        };
        let Some(room) = rooms.pop() else {
            unreachable!()
        };
        match open_post(house, door, room) {
            Ok(post) => posts.push_reserved(post),
            Err(entropy) => return Err(entropy),
        }
    }
    Ok(())
}

/// Hands the doors and entropies back in order, each with its place.
pub(crate) fn hand_back<H: House>(house: &mut H, posts: &mut Vec<Post<H::Door, H::Entropy>>)
    requires few { vec_len posts.old ≤ 65536 }
    requires doors { vec_len posts.old ≤ (H.doors house.old).out }
    requires entropies { vec_len posts.old ≤ (H.entropies house.old).out }
    ensures none { posts.new.items ≡ [] }
    ensures doors { ReturnsAll H.Door.faults (H.doors house.old) (map (λ p. p.door) posts.old.items) (H.doors house.new) }
    ensures door_places { PlacedFrom (H.doors house.old) 0 (vec_len posts.old) (H.doors house.new) }
    ensures entropies { ReturnsAll H.Entropy.faults (H.entropies house.old) (map (λ p. p.entropy) posts.old.items)
        (H.entropies house.new) }
    ensures entropy_places { PlacedFrom (H.entropies house.old) 0 (vec_len posts.old) (H.entropies house.new) }
    ensures seeds { H.seeds house.new ≡ H.seeds house.old }
    ensures journals { H.journals house.new ≡ H.journals house.old }
{
    let mut place = 0;
    while !posts.is_empty() {
        let Post {
            door,
            entropy,
            locality: _,
            room: _,
            tally: _,
        } = take_first(posts);
        house.take_door(place, door);
        house.take_entropy(place, entropy);
        place += 1;
    }
}
