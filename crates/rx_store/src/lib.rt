// The receive store: for each slot a share of 2 × cap bytes, with `buffered` bytes from `head` on in one run. Taking moves the head; an
// append that would pass the share's end first moves the run down to the start, so that a byte is moved about once.
//
// `head` and `buffered` stay two numbers: `take` and `hand_over` need the head alone, a slot's tests `buffered` alone, and intake moves bytes
// of no slot, so that most callers would make a struct, or take one apart, for a single call.
#![tactic(auto)]

ghost use Rattle.std.specs.Prelude.{◌≡◌, ◌+◌, ◌*◌, ◌≤◌, length};
ghost use Rattle.le.specs.Le.{part, put};
ghost use Rattle.rx_store.specs.RxStore.{Room, slid, appended_head, taken_head, Appends, ShareFits, buffered_in, front_of};

// The run, moved down to the start of the share.
#[tactic(auto, using(crate::proofs::Laws::slid_is))]
pub fn move_down(share: &mut [u8], head: usize, n: usize)
    requires { head + n ≤ length share.old }
    ensures { share.new ≡ slid share.old head n }
{
    share.copy_within(head..head + n, 0);
}

// The payload, put behind the buffered bytes. Answers where they begin now.
#[tactic(auto, unfolding(crate::specs::RxStore::appended_head, crate::specs::RxStore::appended, crate::specs::RxStore::fits_behind))]
pub fn append(share: &mut [u8], head: usize, buffered: usize, payload: &[u8]) -> usize
    requires { Room (length share.old) head buffered (length payload.now) }
    ensures { Appends share.old head buffered payload.now result share.new }
{
    let end = head + buffered;
    if end + payload.len() <= share.len() {
        le::copy_at(share, end, payload);
        head
    } else {
        move_down(share, head, buffered);
        le::copy_at(share, buffered, payload);
        0
    }
}

// Where `append` leaves the run in a share of this length, for a payload of k bytes.
#[tactic(auto, unfolding(crate::specs::RxStore::appended_head, crate::specs::RxStore::fits_behind))]
pub fn appended_head(len: usize, head: usize, buffered: usize, k: usize) -> usize
    requires { Room len head buffered k }
    ensures { result ≡ appended_head len head buffered k }
{
    if k <= len - (head + buffered) {
        head
    } else {
        0
    }
}

// The first n buffered bytes, copied to the start of the reader's buffer.
#[tactic(auto, unfolding(le::specs::Le::part))]
pub fn take(share: &[u8], head: usize, n: usize, buf: &mut [u8])
    requires { (head + n ≤ length share.now) × (n ≤ length buf.old) }
    ensures { buf.new ≡ put buf.old 0 (part share.now head n) }
{
    le::copy_at(buf, 0, &share[head..head + n]);
}

// Where the run begins after n of its bytes were taken.
#[tactic(auto, unfolding(crate::specs::RxStore::taken_head))]
pub fn taken_head(head: usize, buffered: usize, n: usize) -> usize
    requires { (n ≤ buffered) × (head + buffered ≤ 0xffff_ffff_ffff_ffff) }
    ensures { result ≡ taken_head head buffered n }
{
    if n == buffered { 0 } else { head + n }
}

// A payload, put behind the run in share i of the receive store.
#[tactic(auto, using(crate::proofs::ShareLaws::buffered_is))]
pub fn buffer(rx: &mut [u8], i: usize, cap: usize, head: usize, buffered: usize, payload: &[u8])
    requires { ShareFits i cap (length rx.old) × Room (2 * cap) head buffered (length payload.now) }
    ensures { rx.new ≡ buffered_in rx.old cap i head buffered payload.now }
{
    let width = 2 * cap;
    let at = i * width;
    append(&mut rx[at..at + width], head, buffered, payload);
}

// The first n bytes of the run in share i of the receive store, copied to the start of the reader's buffer.
#[tactic(auto, using(crate::proofs::ShareLaws::handed_is))]
pub fn hand_over(rx: &[u8], i: usize, cap: usize, head: usize, n: usize, buf: &mut [u8])
    requires { ShareFits i cap (length rx.now) × (head + n ≤ 2 * cap) × (n ≤ length buf.old) }
    ensures { buf.new ≡ put buf.old 0 (front_of rx.now cap i head n) }
{
    let width = 2 * cap;
    let at = i * width;
    take(&rx[at..at + width], head, n, buf);
}
