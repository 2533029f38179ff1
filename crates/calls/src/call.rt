// A call of a list.
use batch::numbers::CALL_WORDS;

// The patterns of a call's vector, where it says nothing.
pub const NONE: [u32; 4] = [0; 4];

// Its function, caller, object and word, and the patterns of its vector.
#[derive(Clone, Copy)]
pub struct Call(pub u32, pub u32, pub u32, pub u32, pub [u32; 4]);

impl Call {
    // The words that a run takes.
    pub fn words(self) -> [u32; CALL_WORDS] {
        let Call(function, caller, object, word, patterns) = self;
        let [normal1, normal2, management, reference] = patterns;
        [
            function, caller, object, word, normal1, normal2, management, reference,
        ]
    }
}
