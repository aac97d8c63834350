// The head of an entry: the numbers that stand in octets 2 to 39, behind the mark (SCOPE, T3). What stands where, the
// conditions on a head (T8), what changes in one, and how it is read and written. It is lent as a part of 40 octets, of
// which the first two are left as they are.
#![tactic(auto)]

ghost use Rattle.std.specs.Prelude.{◌≤◌, max, ◌≡◌, cond, length};
ghost use Rattle.octets.specs.Written.{put_at};
ghost use Rattle.heads.specs.Entry.{present};
ghost use Rattle.heads.specs.Head.{head_length, head_of, empty_head, clear, seen_sound, direct_sound, gossip_sound, head_address, head_seen, head_direct, head_gossip, bits_of, times, lengths, head_octets};

// What octets 2 to 39 say: the lengths, the four bits and the times of an entry (T3).
#[derive(Clone, Copy)]
pub struct Head {
    pub address_length: usize,
    pub seen: bool,
    pub direct: bool,
    pub gossip: bool,
    pub mutual: bool,
    pub last_seen: u64,
    pub timestamp: u64,
    pub gossip_timestamp: u64,
    pub direct_length: usize,
    pub gossip_length: usize,
}

impl Head {
    // The largest time, the last second of the year 9999 (T6).
    pub const TIME_LIMIT: u64 = 253402300799;

    // The widths of a length and of a time (T2), and the place of each number (T3), from the one before. Octets 5 to 7,
    // behind the bits, and 36 to 39, behind the lengths, are unused and must be zero (T8.4).
    pub const LENGTH_WIDTH: usize = 2;

    pub const TIME_WIDTH: usize = 8;

    pub const ADDRESS_LENGTH_AT: usize = 2;

    pub const BITS_AT: usize = Self::ADDRESS_LENGTH_AT + Self::LENGTH_WIDTH;

    pub const CLEAR_BEHIND_BITS_AT: usize = Self::BITS_AT + 1;

    pub const LAST_SEEN_AT: usize = Self::CLEAR_BEHIND_BITS_AT + 3;

    pub const TIMESTAMP_AT: usize = Self::LAST_SEEN_AT + Self::TIME_WIDTH;

    pub const GOSSIP_TIMESTAMP_AT: usize = Self::TIMESTAMP_AT + Self::TIME_WIDTH;

    pub const DIRECT_LENGTH_AT: usize = Self::GOSSIP_TIMESTAMP_AT + Self::TIME_WIDTH;

    pub const GOSSIP_LENGTH_AT: usize = Self::DIRECT_LENGTH_AT + Self::LENGTH_WIDTH;

    pub const CLEAR_BEHIND_LENGTHS_AT: usize = Self::GOSSIP_LENGTH_AT + Self::LENGTH_WIDTH;

    pub const LEN: usize = Self::CLEAR_BEHIND_LENGTHS_AT + 4;

    // An empty entry: an address of the given length, and all else absent.
    pub fn empty(address_length: usize) -> Self
        ensures { result ≡ empty_head address_length }
    {
        Self {
            address_length,
            seen: false,
            direct: false,
            gossip: false,
            mutual: false,
            last_seen: 0,
            timestamp: 0,
            gossip_timestamp: 0,
            direct_length: 0,
            gossip_length: 0,
        }
    }

    // The numbers that stand in 40 octets.
    #[tactic(auto, unfolding(crate::specs::Head::head_of))]
    pub fn read(head: &[u8]) -> Self
        requires { length head.now ≡ head_length }
        ensures { result ≡ head_of head.now }
    {
        let bits = head[Self::BITS_AT];
        Self {
            address_length: octets::number_at(
                head,
                Self::ADDRESS_LENGTH_AT,
                Self::LENGTH_WIDTH,
            ) as usize,
            seen: bits % 2 == 1,
            direct: bits / 2 % 2 == 1,
            gossip: bits / 4 % 2 == 1,
            mutual: bits / 8 % 2 == 1,
            last_seen: octets::number_at(head, Self::LAST_SEEN_AT, Self::TIME_WIDTH),
            timestamp: octets::number_at(head, Self::TIMESTAMP_AT, Self::TIME_WIDTH),
            gossip_timestamp: octets::number_at(head, Self::GOSSIP_TIMESTAMP_AT, Self::TIME_WIDTH),
            direct_length: octets::number_at(
                head,
                Self::DIRECT_LENGTH_AT,
                Self::LENGTH_WIDTH,
            ) as usize,
            gossip_length: octets::number_at(
                head,
                Self::GOSSIP_LENGTH_AT,
                Self::LENGTH_WIDTH,
            ) as usize,
        }
    }

    // Last seen: in range (T8.5), zero where it is absent (T8.7), and present beside a direct half (T8.10).
    pub fn seen_sound(self) -> bool
        ensures { result ≡ seen_sound self }
    {
        (self.last_seen <= Self::TIME_LIMIT)
            & (self.seen | (self.last_seen == 0))
            & (!self.direct | self.seen)
    }

    // The direct half: where it is present, a key of 1 to `limit` octets (T8.6), and a timestamp in range (T8.5) and not
    // above last seen (T8.10); where it is absent, nothing but zeros (T8.7), and no preference (T8.9).
    pub fn direct_sound(self, limit: usize) -> bool
        ensures { result ≡ direct_sound limit self }
    {
        let is_good = (1 <= self.direct_length)
            & (self.direct_length <= limit)
            & (self.timestamp <= Self::TIME_LIMIT)
            & (self.timestamp <= self.last_seen);
        let is_zero = (self.timestamp == 0) & (self.direct_length == 0) & !self.mutual;
        (!self.direct | is_good) & (self.direct | is_zero)
    }

    // The gossip half: where it is present, a key of 1 to `limit` octets (T8.6) and a timestamp in range (T8.5), which may
    // be above last seen (T11); where it is absent, nothing but zeros (T8.7).
    pub fn gossip_sound(self, limit: usize) -> bool
        ensures { result ≡ gossip_sound limit self }
    {
        let is_good = (1 <= self.gossip_length)
            & (self.gossip_length <= limit)
            & (self.gossip_timestamp <= Self::TIME_LIMIT);
        let is_zero = (self.gossip_timestamp == 0) & (self.gossip_length == 0);
        (!self.gossip | is_good) & (self.gossip | is_zero)
    }

    // Octet 4: the sum of 1 for last seen, 2 for the direct half, 4 for the gossip half and 8 for the preference (T5).
    #[tactic(auto, unfolding(crate::specs::Head::bits_of))]
    pub fn bits(self) -> u64
        ensures { result ≡ bits_of self }
    {
        u64::from(self.seen)
            + 2 * u64::from(self.direct)
            + 4 * u64::from(self.gossip)
            + 8 * u64::from(self.mutual)
    }

    // The three times, each where it is there (T5).
    pub fn seen_time(self) -> Option<u64>
        ensures { result ≡ present self.seen self.last_seen }
    {
        self.seen.then_some(self.last_seen)
    }

    pub fn direct_time(self) -> Option<u64>
        ensures { result ≡ present self.direct self.timestamp }
    {
        self.direct.then_some(self.timestamp)
    }

    pub fn gossip_time(self) -> Option<u64>
        ensures { result ≡ present self.gossip self.gossip_timestamp }
    {
        self.gossip.then_some(self.gossip_timestamp)
    }

    // With another address, of so many octets (T17).
    pub fn with_address(self, length: usize) -> Self
        ensures { result ≡ head_address length self }
    {
        Self {
            address_length: length,
            ..self
        }
    }

    // Last seen becomes the date if it was absent or smaller (U7). An absent one is 0 (T8.7), so that the larger of the two
    // is right.
    pub fn seen_by(self, date: u64) -> Self
        ensures { result ≡ head_seen date self }
    {
        Self {
            seen: true,
            last_seen: self.last_seen.max(date),
            ..self
        }
    }

    // With another direct half, whose key has so many octets (U8).
    pub fn with_direct(self, timestamp: u64, length: usize, mutual: bool) -> Self
        ensures { result ≡ head_direct timestamp length «mutual» self }
    {
        Self {
            direct: true,
            mutual,
            timestamp,
            direct_length: length,
            ..self
        }
    }

    // With another gossip half, whose key has so many octets (G7).
    pub fn with_gossip(self, timestamp: u64, length: usize) -> Self
        ensures { result ≡ head_gossip timestamp length self }
    {
        Self {
            gossip: true,
            gossip_timestamp: timestamp,
            gossip_length: length,
            ..self
        }
    }

    // Writes octets 8 to 31.
    #[tactic(auto, using(crate::proofs::Writing::putting))]
    fn put_times(self, head: &mut [u8])
        requires { length head.old ≡ head_length }
        ensures { head.new ≡ put_at head.old 8 (times self) }
    {
        octets::put_number(head, Self::LAST_SEEN_AT, Self::TIME_WIDTH, self.last_seen);
        octets::put_number(head, Self::TIMESTAMP_AT, Self::TIME_WIDTH, self.timestamp);
        octets::put_number(
            head,
            Self::GOSSIP_TIMESTAMP_AT,
            Self::TIME_WIDTH,
            self.gossip_timestamp,
        );
    }

    // Writes octets 32 to 39.
    #[tactic(auto, using(crate::proofs::Writing::putting))]
    fn put_lengths(self, head: &mut [u8])
        requires { length head.old ≡ head_length }
        ensures { head.new ≡ put_at head.old 32 (lengths self) }
    {
        octets::put_number(
            head,
            Self::DIRECT_LENGTH_AT,
            Self::LENGTH_WIDTH,
            self.direct_length as u64,
        );
        octets::put_number(
            head,
            Self::GOSSIP_LENGTH_AT,
            Self::LENGTH_WIDTH,
            self.gossip_length as u64,
        );
        octets::put_number(head, Self::CLEAR_BEHIND_LENGTHS_AT, 4, 0);
    }

    // Writes octets 2 to 39. The bits are a number of four octets, as those behind them are unused and zero (T8.4).
    #[tactic(auto, using(crate::proofs::Writing::putting))]
    pub fn put(self, head: &mut [u8])
        requires { length head.old ≡ head_length }
        ensures { head.new ≡ put_at head.old 2 (head_octets self) }
    {
        octets::put_number(
            head,
            Self::ADDRESS_LENGTH_AT,
            Self::LENGTH_WIDTH,
            self.address_length as u64,
        );
        octets::put_number(head, Self::BITS_AT, 4, self.bits());
        self.put_times(head);
        self.put_lengths(head);
    }
}

// Are the four upper bits of octet 4 clear, and the octets 5 to 7 and 36 to 39 zero (T8.4)?
#[tactic(auto, unfolding(crate::specs::Head::clear))]
pub fn is_clear(head: &[u8]) -> bool
    requires { length head.now ≡ head_length }
    ensures { result ≡ clear head.now }
{
    (head[Head::BITS_AT] < 16)
        & octets::is_zero(&head[Head::CLEAR_BEHIND_BITS_AT..Head::LAST_SEEN_AT])
        & octets::is_zero(&head[Head::CLEAR_BEHIND_LENGTHS_AT..Head::LEN])
}
