// The lottery: draws a member, each with its tickets and 1 as its weight.
ghost use Rattle.std.specs.Prelude.{◌≡◌, ℕ, ◌<◌, ◌≤◌, true};
ghost use Rattle.policies.specs.Modules.{has};
ghost use Rattle.policies.specs.Xorshift.{xorshift};
ghost use Rattle.policies.specs.Tickets.{lottery_of, share, weights, drawn, lottery_choice, lottery_chosen, lottery_heard, Draws};
ghost use Rattle.policies.specs.Weights.{lottery_member, lottery_none, lottery_above};

use crate::{News, Policy};

#[derive(Clone, Copy, Debug, PartialEq, Eq)]
pub struct Lottery {
    // the word that a choice steps and draws by
    word: u32,
    // of each module: one more when it is routed to, one less when it returns a tuple
    tickets: [u16; 14],
}

impl Lottery {
    pub fn new(seed: u32) -> Lottery
        ensures value { result ≡ lottery_of seed }
    {
        Lottery {
            word: if seed == 0 { 1 } else { seed },
            tickets: [0; 14],
        }
    }

    // What a module adds to the summed weights.
    fn share(&self, members: &[bool; 14], m: usize) -> u32
        requires { m < 14 }
        ensures value { result ≡ share self.now.tickets members.now m }
        ensures most { result ≤ 65536 }
    {
        if members[m] {
            u32::from(self.tickets[m]) + 1
        } else {
            0
        }
    }

    fn weights(&self, members: &[bool; 14]) -> u32
        ensures { result ≡ weights self.now.tickets members.now }
    {
        (0..14).map(|m| self.share(members, m)).sum()
    }

    // By hand: a chain would carry the running sum in a closure that changes it, or sum the weights below each module again.
    fn drawn(&self, members: &[bool; 14], draw: u32) -> u8
        ensures { result ≡ drawn self.now.tickets members.now draw }
    {
        let mut sum = 0;
        for m in 0..14 {
            sum += self.share(members, m);
            if draw < sum {
                return m as u8;
            }
        }
        14
    }
}

fn xorshift_of(word: u32) -> u32
    ensures { result ≡ xorshift word }
{
    let a = word ^ (word << 13);
    let b = a ^ (a >> 17);
    b ^ (b << 5)
}

impl Policy for Lottery {
    ghost choice = { lottery_choice };

    ghost chosen = { lottery_chosen };

    ghost heard = { lottery_heard };

    ghost member = { λ s members m short h. lottery_member s members m short h };

    ghost none = { λ s members none. lottery_none s members none };

    ghost above = { λ s news m high. lottery_above s news m high };

    fn choose(&mut self, members: &[bool; 14]) -> u8
        ensures value { result ≡ lottery_choice self.old members.now }
        ensures after { self.new ≡ lottery_chosen self.old members.now }
        ensures law { (m : ℕ) → has members.now m ≡ true → Draws self.old self.new members.now result }
    {
        let sum = self.weights(members);
        if sum == 0 {
            return 14;
        }
        let word = xorshift_of(self.word);
        self.word = word;
        self.drawn(members, word % sum)
    }

    fn told(&mut self, news: News, which: u8) {
        // By hand: with `get_mut` the proof left open what the tickets are at the return (`returns-after-news`).
        let at = usize::from(which);
        if at < 14 {
            let n = self.tickets[at];
            self.tickets[at] = match news {
                News::Routed => n.saturating_add(1),
                News::Returned => n.saturating_sub(1),
            };
        }
    }
}

#[cfg(test)]
mod tests {
    use super::*;
    use std::process::Abort;

    fn steps_through(rt: &impl Abort, start: u32, words: &[u32]) {
        let mut word = start;
        for known in words {
            word = xorshift_of(word);
            assert_eq!(rt; word, *known);
        }
    }

    #[test]
    fn known_words(rt: HostRuntime) {
        steps_through(
            &rt,
            1,
            &[
                270369, 67634689, 2647435461, 307599695, 2398689233, 745495504,
            ],
        );
        steps_through(&rt, 2, &[540738, 134253570, 697882754]);
        steps_through(&rt, 4294967295, &[253983, 4228382207, 1958451267]);
    }

    #[test]
    fn first_draw_of_seed_1(rt: HostRuntime) {
        let mut members = [false; 14];
        members[0] = true;
        members[6] = true;
        let mut lottery = Lottery::new(1);
        assert_eq!(rt; lottery.choose(&members), 6);
    }
}
