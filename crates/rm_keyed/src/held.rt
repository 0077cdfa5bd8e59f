// The rows by what is held.
ghost use Rattle.std.specs.Prelude.{◌≡◌, List, option_copied};
ghost use Rattle.rm_evicting.specs.Mention.{Mention, keys};
ghost use Rattle.rm_evicting.specs.Held.{size};
ghost use Rattle.rm_keyed.specs.Entered.{IsOf};
ghost use Rattle.rm_keyed.specs.Held.{value_held, rank_held, key_of_rank};

use crate::counts::Counts;
use crate::keyed::Keyed;
use rm_evicting::Key;

impl<K: Key, V: Counts> Keyed<K, V> {
    /// What the mentions of a key have added since it was entered. None where it isn't held.
    pub fn get(&self, key: &K) -> Option<&V>
        ensures { (mentions : List (Mention K V)) → IsOf K.eq V.blank_value V.plus mentions self.now
            → option_copied result ≡ value_held K.eq self.now.rows.capacity mentions V.blank_value V.plus key.now }
    {
        self.rows().get(key)
    }

    /// The rank of a key in the order of entry, from 1. None where it isn't held.
    pub fn order(&self, key: &K) -> Option<usize>
        ensures { (mentions : List (Mention K V)) → IsOf K.eq V.blank_value V.plus mentions self.now
            → result ≡ rank_held K.eq self.now.rows.capacity mentions key.now }
    {
        self.rows().order(key)
    }

    /// The key of a rank. None where no key that is held has it.
    pub fn made(&self, rank: usize) -> Option<&K>
        ensures { (mentions : List (Mention K V)) → IsOf K.eq V.blank_value V.plus mentions self.now
            → option_copied result ≡ key_of_rank K.eq self.now.rows.capacity mentions rank }
    {
        self.rows().made(rank)
    }

    /// How many keys are held.
    pub fn len(&self) -> usize
        ensures { (mentions : List (Mention K V)) → IsOf K.eq V.blank_value V.plus mentions self.now
            → result ≡ size K.eq self.now.rows.capacity (keys mentions) }
    {
        self.rows().len()
    }
}
