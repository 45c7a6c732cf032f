// The stream hasher, as the Rust's v3/rapid_stream_hasher, by value: a state goes in and the next comes out.
ghost use Rattle.std.specs.Prelude.{◌≡◌, true, false, [], ◌++◌, ◌+◌, ◌-◌, ◌*◌, ◌<◌, ◌≤◌, leb, ◌==◌};
ghost use Rattle.std.specs.Prelude.{length, take, drop, replicate, MatchResult};
ghost use Rattle.std.specs.List.{list_all};
ghost use Rattle.secrets.specs.Choice.{pick, all_are};
ghost use Rattle.rapidhash.specs.Words.{word};
ghost use Rattle.stream.specs.Stream.{feed, stream_hash, slide};
ghost use Rattle.stream.specs.State.{view, hold, opening_of, sofar, most, sound, taken, write_of, finish_of, reset_of};
ghost use Rattle.stream.specs.State.{begun, answered, refused, ended};
ghost use Rattle.stream.specs.declared.rapid_stream_hasher.WriteError.TheVariants.{NotSound};

use rapidhash::util::read::{all_zero, read_u64};
use rapidhash::v3::lanes::{Size, join, mix_chunks, mix_first};
use rapidhash::v3::rapid_const::{Ends, last_step, rapidhash_v3_inline, tail_steps};
use secrets::v3::seed::RapidSecrets;

// The size of a chunk.
const CHUNK_SIZE: usize = 112;

// How many bytes of the previous chunk stand before those that wait.
const CHUNK_PREV: usize = 16;

// Room for both.
type Buffer = [u8; CHUNK_PREV + CHUNK_SIZE];

// The most chunks that a stream of at most 2^64 - 1 bytes has mixed.
const MOST_CHUNKS: u64 = u64::MAX / CHUNK_SIZE as u64;

// What an opening fixes.
#[repr(C)]
#[derive(Clone, Copy)]
pub struct Settings {
    pub secrets: RapidSecrets,
    pub avalanche: bool,
    pub protected: bool,
}

// The state between two calls: the lanes and the number of chunks that they have taken; the bytes that wait, from
// place 16 of the buffer on; before them the 16 that end the previous chunk. A buffer with a number beside it, and no
// slice or list: C holds the state by its fields, and no stream takes memory from a heap.
#[repr(C)]
#[derive(Clone, Copy)]
pub struct RapidStreamHasher {
    pub settings: Settings,
    pub lanes: [u64; 7],
    pub count: u64,
    pub waiting: usize,
    pub buffer: Buffer,
}

// A state that is not sound.
#[derive(Clone, Copy, Debug, PartialEq, Eq)]
pub struct NotSound;

// Why a write took no bytes: the state is not sound, or the stream would be too long, with the room that is left.
#[derive(Clone, Copy, Debug, PartialEq, Eq)]
pub enum WriteError {
    NotSound,
    TooLong(u64),
}

// A state that is not sound takes no bytes.
impl From<NotSound> for WriteError {
    ghost from_gives = { λ _ e. e ≡ NotSound };

    fn from(_e: NotSound) -> WriteError {
        WriteError::NotSound
    }
}

// A write's answer: the next state, and whether all bytes were taken. A struct beside a result, as the rules name it:
// what a refusal leaves is the state as it was, and the contract says so of this field.
#[derive(Clone, Copy)]
pub struct Written {
    pub state: RapidStreamHasher,
    pub outcome: Result<(), WriteError>,
}

// What finish finds: the hash and the number of chunks mixed.
#[derive(Clone, Copy, Debug, PartialEq, Eq)]
pub struct Finished {
    pub hash: u64,
    pub count: u64,
}

impl RapidStreamHasher {
    // The opening state. (Three parameters and no `Settings`, as the Rust has them and as C calls it.)
    pub fn new(secrets: RapidSecrets, avalanche: bool, protected: bool) -> Self
        ensures { result ≡ opening_of (record { secrets = secrets; avalanche = avalanche; protected = protected }) }
    {
        opening(Settings {
            secrets,
            avalanche,
            protected,
        })
    }

    // The next state where all bytes are taken; else the state as it was, and why.
    pub fn write(self, data: &[u8]) -> Written
        ensures { answered result ≡ write_of 7 self «data».now }
    {
        match self.ready_for(data) {
            Ok(h) => {
                let next = h.with_bytes(data);
                Written {
                    state: next,
                    outcome: Ok(()),
                }
            }
            Err(error) => Written {
                state: self,
                outcome: Err(error),
            },
        }
    }

    // The hash of the bytes so far, and how many chunks were mixed. The state stays the caller's.
    pub fn finish(self) -> Result<Finished, NotSound>
        ensures { ended result ≡ finish_of 7 self }
    {
        let h = self.checked()?;
        Ok(Finished {
            hash: h.hash(),
            count: self.count,
        })
    }

    // The opening state of the same settings.
    pub fn reset(self) -> Self
        ensures { result ≡ reset_of self }
    {
        opening(self.settings)
    }

    // The state as one that may take the data, or why it does not.
    fn ready_for(&self, data: &[u8]) -> Result<Sound<'_>, WriteError>
        ensures { MatchResult result
            (λ h. (h.state.now ≡ self.now) × (sofar 7 self.now + length «data».now ≤ most))
            (λ e. refused self.now e ≡ write_of 7 self.now «data».now) }
    {
        let h = self.checked()?;
        let room = h.room();
        if room < data.len() as u64 {
            return Err(WriteError::TooLong(room));
        }
        Ok(h)
    }

    // The state as a sound one.
    fn checked(&self) -> Result<Sound<'_>, NotSound>
        ensures { MatchResult result (λ h. h.state.now ≡ self.now) (λ _. sound 7 self.now ≡ false) }
    {
        if is_sound(self) {
            Ok(Sound { state: self })
        } else {
            Err(NotSound)
        }
    }
}

// The state of a stream of no bytes.
fn opening(settings: Settings) -> RapidStreamHasher
    ensures { result ≡ opening_of settings }
{
    let seed = settings.secrets.seed;
    RapidStreamHasher {
        settings,
        lanes: [seed; 7],
        count: 0,
        waiting: 0,
        buffer: blank(),
    }
}

// A buffer that holds nothing.
fn blank() -> Buffer
    ensures { result ≡ replicate 128 0 }
{
    [0; CHUNK_PREV + CHUNK_SIZE]
}

// Whether a state may be gone on from.
fn is_sound(h: &RapidStreamHasher) -> bool
    ensures { result ≡ sound 7 h.now }
{
    is_sized(h.count, h.waiting) && is_in_order(h)
}

// Whether at most a chunk waits and the stream is not too long. By a difference, so that no sum wraps.
fn is_sized(count: u64, waiting: usize) -> bool
    ensures { result ≡ pick (leb waiting 112) (leb (112 * count + waiting) most) false }
{
    waiting <= CHUNK_SIZE
        && count <= MOST_CHUNKS
        && waiting as u64 <= u64::MAX - CHUNK_SIZE as u64 * count
}

// Whether nothing stands behind the bytes that wait, and the state is begun as it must be.
fn is_in_order(h: &RapidStreamHasher) -> bool
    requires { h.now.waiting ≤ 112 }
    ensures { result ≡ pick (all_are 0 (drop (16 + h.now.waiting) h.now.buffer)) (begun h.now) false }
{
    is_clear_after(&h.buffer, h.waiting) && is_begun(h)
}

// Whether before the first chunk all lanes are the seed and nothing stands before the bytes that wait, and whether
// after it at least one byte waits.
fn is_begun(h: &RapidStreamHasher) -> bool
    ensures { result ≡ begun h.now }
{
    if 0 < h.count {
        1 <= h.waiting
    } else {
        lanes_are(&h.lanes, h.settings.secrets.seed) && is_clear_before(&h.buffer)
    }
}

// Whether nothing stands behind the bytes that wait.
fn is_clear_after(buffer: &Buffer, waiting: usize) -> bool
    requires { waiting ≤ 112 }
    ensures { result ≡ all_are 0 (drop (16 + waiting) buffer.now) }
{
    all_zero(&buffer[CHUNK_PREV + waiting..])
}

// Whether nothing stands before them.
fn is_clear_before(buffer: &Buffer) -> bool
    ensures { result ≡ all_are 0 (take 16 buffer.now) }
{
    all_zero(&buffer[..CHUNK_PREV])
}

// Whether all lanes are one number.
fn lanes_are(lanes: &[u64; 7], seed: u64) -> bool
    ensures { result ≡ list_all (λ lane. lane == seed) lanes.now }
{
    lanes.iter().all(|lane| *lane == seed)
}

// A sound state, lent: one that may be gone on from. With it, how long its buffer is, and two bounds that soundness
// tells. Lent and not held, since with copies of the state in and out of each call a short write took half as long
// again.
#[derive(Clone, Copy)]
struct Sound<'a> {
    state: &'a RapidStreamHasher,
    ghost is_sound: { sound 7 state.now ≡ true },
    ghost whole: { length state.now.buffer ≡ 128 },
    ghost within: { state.now.waiting ≤ 112 },
    ghost short: { 112 * state.now.count + state.now.waiting ≤ most },
}

impl<'a> Sound<'a> {
    // How many bytes more the stream may take.
    fn room(self) -> u64
        ensures { result ≡ most - sofar 7 self.entry.state.now }
    {
        u64::MAX - (CHUNK_SIZE as u64 * self.state.count + self.state.waiting as u64)
    }

    // All bytes taken: while they fit they only wait.
    fn with_bytes(self, data: &[u8]) -> RapidStreamHasher
        requires { sofar 7 self.state.now + length «data».now ≤ most }
        ensures { result ≡ taken 7 self.entry.state.now «data».now }
    {
        let m = self.state.waiting;
        if data.len() <= CHUNK_SIZE - m {
            self.waited(data)
        } else {
            self.write_inner(data)
        }
    }

    // The bytes come to those that wait, in the place of zeros.
    fn waited(self, data: &[u8]) -> RapidStreamHasher
        requires { self.state.now.waiting + length «data».now ≤ 112 }
        ensures { result ≡ taken 7 self.entry.state.now «data».now }
    {
        let h = self.state;
        RapidStreamHasher {
            waiting: h.waiting + data.len(),
            buffer: put(h.buffer, CHUNK_PREV + h.waiting, data),
            ..*h
        }
    }

    // More bytes than fit. Where none waits, the data's own chunks are the first; else the waiting chunk is filled up
    // and mixed, and the data goes on from there.
    fn write_inner(self, data: &[u8]) -> RapidStreamHasher
        requires { (112 < self.state.now.waiting + length «data».now)
            × (sofar 7 self.state.now + length «data».now ≤ most) }
        ensures { result ≡ taken 7 self.entry.state.now «data».now }
    {
        let h = self.state;
        let m = h.waiting;
        if m == 0 {
            return from_chunk_end(h.settings, h.lanes, h.count, &h.buffer[..CHUNK_PREV], data);
        }
        let fill = CHUNK_SIZE - m;
        let full = put(h.buffer, CHUNK_PREV + m, &data[..fill]);
        let next = mix_first(
            &full[CHUNK_PREV..],
            h.settings.secrets.secrets,
            h.lanes,
            Size::Full,
            h.settings.protected,
        );
        from_chunk_end(
            h.settings,
            next,
            h.count + 1,
            &full[CHUNK_SIZE..],
            &data[fill..],
        )
    }

    // The hash: while no chunk is mixed, that of the bytes that wait.
    fn hash(self) -> u64
        ensures { result ≡ stream_hash 7 self.entry.state.now.settings.avalanche self.entry.state.now.settings.protected
            self.entry.state.now.settings.secrets (view self.entry.state.now) }
    {
        let h = self.state;
        let m = h.waiting;
        let settings = h.settings;
        let secrets = settings.secrets;
        let rest = &h.buffer[CHUNK_PREV..CHUNK_PREV + m];
        if h.count == 0 {
            return rapidhash_v3_inline(rest, secrets, settings.avalanche, true, settings.protected);
        }
        let s = secrets.secrets;
        let seed = join(h.lanes, Size::Full);
        let e = Ends {
            a: word_at(&h.buffer, m) ^ m as u64,
            b: word_at(&h.buffer, m + 8),
            seed: tail_steps(rest, s[1], s[2], seed, settings.protected),
            r: m as u64,
        };
        last_step(e, s, settings.avalanche, settings.protected)
    }
}

// Bytes to a stream in which none wait, after the 16 that end its last chunk: whole chunks are mixed straight from the
// data, and what is left waits in a buffer that holds nothing else.
fn from_chunk_end<'a>(
    settings: Settings,
    lanes: [u64; 7],
    count: u64,
    prev: &'a [u8],
    data: &'a [u8],
) -> RapidStreamHasher
    requires { (length prev.now ≡ 16) × (112 * count + length «data».now ≤ most) }
    ensures { result ≡ hold settings (feed 7 settings.protected settings.secrets.secrets
        (record { lanes = lanes; count = count; prev = prev.now; rest = [] }) «data».now) }
{
    let x = mix_chunks(
        data,
        settings.secrets.secrets,
        lanes,
        Size::Full,
        false,
        settings.protected,
    );
    let at = x.at;
    let next = x.lanes;
    let ended = put(blank(), 0, last_sixteen(prev, data, at));
    RapidStreamHasher {
        settings,
        lanes: next,
        count: count + (at / CHUNK_SIZE) as u64,
        waiting: data.len() - at,
        buffer: put(ended, CHUNK_PREV, &data[at..]),
    }
}

// A part put into the buffer from a place on.
fn put(buffer: Buffer, at: usize, part: &[u8]) -> Buffer
    requires { at + length part.now ≤ 128 }
    ensures { result ≡ take at buffer ++ part.now ++ drop (at + length part.now) buffer }
{
    let mut next = buffer;
    next[at..at + part.len()].copy_from_slice(part);
    next
}

// The 16 bytes that end the last chunk: of the data where it had one, else those before it.
fn last_sixteen<'a>(prev: &'a [u8], data: &'a [u8], at: usize) -> &'a [u8]
    requires { (length prev.now ≡ 16) × (at ≤ length «data».now) × (at < 16 → at ≡ 0) }
    ensures { result.now ≡ slide prev.now (take at «data».now) }
{
    if CHUNK_PREV <= at {
        &data[at - CHUNK_PREV..at]
    } else {
        prev
    }
}

// The word at a place that is known to be there. (As the `word8` of rapidhash, which only that crate sees, since no
// public function asks anything.)
fn word_at(bytes: &[u8], at: usize) -> u64
    requires { at + 8 ≤ length bytes.now }
    ensures { result ≡ word 8 bytes.now at }
{
    read_u64(bytes, at).unwrap()
}
