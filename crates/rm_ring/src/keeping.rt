// What a ring keeps of the packets that it is given.
ghost use Rattle.std.specs.Prelude.{◌≡◌, ◌≤◌, [], ◌∷◌, ◌++◌, length, nat_le, nat_lt};
ghost use Rattle.rm_ring.specs.Kept.{stored, cost_of, longest_front, longest_tail};

use crate::ring::Ring;

impl<T: Copy> Ring<T> {
    /// Keeps a packet behind the others where there is room for it, and answers whether there is. So of a list of packets that begins
    /// with those that are kept, the longest front is kept that costs no more than is granted.
    pub fn keep_if_room(&mut self, info: T, octets: &[u8]) -> bool
        requires { length octets.now ≤ self.old.slice }
        ensures packets { self.new ≡ record self.old { packets = longest_front self.old.granted (self.old.packets ++ stored info octets.now ∷ []) } }
        ensures kept { result ≡ nat_le (cost_of (self.old.packets ++ stored info octets.now ∷ [])) self.old.granted }
    {
        if !self.has_room(octets.len()) {
            return false;
        }
        self.push(info, octets);
        true
    }

    /// Keeps a packet behind the others, of which the oldest are dropped until there is room for it, and answers whether one was
    /// dropped. So of all packets the longest tail is kept that costs no more than is granted. It takes as many steps as packets are
    /// dropped.
    pub fn keep_latest(&mut self, info: T, octets: &[u8]) -> bool
        requires { length octets.now ≤ self.old.slice }
        ensures packets { self.new ≡ record self.old { packets = longest_tail self.old.granted (self.old.packets ++ stored info octets.now ∷ []) } }
        ensures dropped { result ≡ nat_lt self.old.granted (cost_of (self.old.packets ++ stored info octets.now ∷ [])) }
    {
        let is_full = !self.has_room(octets.len());
        'dropping: while !self.has_room(octets.len()) {
            self.drop_oldest();
        }
        self.push(info, octets);
        is_full
    }
}
