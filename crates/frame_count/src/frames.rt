ghost use Rattle.std.specs.Prelude.{◌≡◌, ◌≤◌, ◌↔◌, ℕ, IsSome, IfSome, IsSomeAnd};
ghost use Rattle.frame_count.specs.Written.{WritesFrames};

/// The fewest frames that a pool may have.
pub const LEAST_FRAMES: u32 = 16;

/// The most frames that a pool may have.
pub const GREATEST_FRAMES: u32 = 4096;

/// The frames of a pool where the command line says nothing.
pub const DEFAULT_FRAMES: u32 = 256;

/// How many pages the pool may keep in memory: from 16 to 4,096 frames.
#[derive(Clone, Copy, PartialEq, Eq)]
pub struct Frames {
    count: u32,
    ghost enough: { 16 ≤ count },
    ghost bounded: { count ≤ 4096 },
}

impl Frames {
    /// So many frames, or none where the count is out of range.
    pub fn new(count: u32) -> Option<Frames>
        ensures valid { IsSome result ↔ ((16 ≤ count) × (count ≤ 4096)) }
        ensures value { IfSome result (λ frames. frames.count ≡ count) }
    {
        if LEAST_FRAMES <= count && count <= GREATEST_FRAMES {
            Some(Frames { count })
        } else {
            None
        }
    }

    /// The number of frames that a text writes, where there may be so many.
    pub fn written(text: &str) -> Option<Frames>
        ensures asked { (count : ℕ) → WritesFrames text.now count → IsSomeAnd result (λ frames. frames.count ≡ count) }
        ensures found { IfSome result (λ frames. WritesFrames text.now frames.count) }
    {
        match text.parse::<u32>() {
            Ok(count) => Frames::new(count),
            Err(_) => None,
        }
    }

    /// The count.
    pub fn get(self) -> u32
        ensures value { result ≡ self.count }
        ensures enough { 16 ≤ result }
        ensures bounded { result ≤ 4096 }
    {
        self.count
    }
}
