// A row of the list: 64 bytes, the first a letter that says what it is. The fields stand where the recorder puts them, numbers with the
// low byte first.
use rows::numbers::Number;

pub const BYTES: usize = 64;

// The last row has the list's sum after so many bytes.
pub const SUMMED: usize = 60;

// The longest name of a group, and the longest patch.
const NAME: usize = 62;

const PATCH: usize = 8;

// What a row asks for.
#[derive(Clone, Copy, Debug, PartialEq, Eq)]
pub enum Kind {
    Group,
    New,
    WriteRegister,
    Write8,
    Read8,
    Read16,
    Protect,
    Reset,
    PowerOff,
    Environment,
    Look,
    Register,
    Patch,
    Cut,
    Restore,
    End,
}

// A letter that no row begins with.
#[derive(Clone, Copy, Debug, PartialEq, Eq)]
pub struct UnknownLetter(pub u8);

impl TryFrom<u8> for Kind {
    type Error = UnknownLetter;

    fn try_from(letter: u8) -> Result<Self, UnknownLetter> {
        Ok(match letter {
            b'G' => Kind::Group,
            b'N' => Kind::New,
            b'W' => Kind::WriteRegister,
            b'D' => Kind::Write8,
            b'B' => Kind::Read8,
            b'H' => Kind::Read16,
            b'P' => Kind::Protect,
            b'R' => Kind::Reset,
            b'O' => Kind::PowerOff,
            b'E' => Kind::Environment,
            b'L' => Kind::Look,
            b'Q' => Kind::Register,
            b'C' => Kind::Patch,
            b'K' => Kind::Cut,
            b'S' => Kind::Restore,
            b'Z' => Kind::End,
            _ => return Err(UnknownLetter(letter)),
        })
    }
}

#[derive(Drop)]
pub struct Row(pub [u8; BYTES]);

impl Row {
    pub fn kind(&self) -> Result<Kind, UnknownLetter> {
        Kind::try_from(self.0[0])
    }

    // A value to write, a register's value, a mode, a bit, a refusal's number, or how many bytes a patch or a name has.
    pub fn value(&self) -> u8 {
        self.0[1]
    }

    pub fn address(&self) -> u16 {
        u16::get(&self.0, 2)
    }

    // The environment's flags.
    pub fn module(&self) -> bool {
        self.0[4] != 0
    }

    pub fn oscillator(&self) -> bool {
        self.0[5] != 0
    }

    // How many bytes: the firmware's, or those of the snapshot that are read; or the place of a patch; or how many rows there are.
    pub fn size(&self) -> u32 {
        u32::get(&self.0, 4)
    }

    pub fn seconds(&self) -> u64 {
        u64::get(&self.0, 8)
    }

    pub fn fraction(&self) -> u64 {
        u64::get(&self.0, 16)
    }

    // What a call answered: the value that was read, the number of event words, and their sum.
    pub fn answer(&self) -> u16 {
        u16::get(&self.0, 28)
    }

    pub fn event_count(&self) -> u16 {
        u16::get(&self.0, 6)
    }

    pub fn event_sum(&self) -> u32 {
        u32::get(&self.0, 24)
    }

    // What a look saw.
    pub fn peek(&self) -> u8 {
        self.0[24]
    }

    pub fn blank(&self) -> u8 {
        self.0[25]
    }

    pub fn charge(&self) -> u64 {
        u64::get(&self.0, 28)
    }

    // The firmware's formula.
    pub fn seed(&self) -> u32 {
        u32::get(&self.0, 24)
    }

    pub fn factor(&self) -> u32 {
        u32::get(&self.0, 28)
    }

    pub fn step(&self) -> u32 {
        u32::get(&self.0, 32)
    }

    // What was left: the five registers, whether reading is normal and the state valid, the sum of the image, and length and sum of the
    // snapshot.
    pub fn flmcr1(&self) -> u8 {
        self.0[36]
    }

    pub fn flmcr2(&self) -> u8 {
        self.0[37]
    }

    pub fn flpwcr(&self) -> u8 {
        self.0[38]
    }

    pub fn ebr1(&self) -> u8 {
        self.0[39]
    }

    pub fn fenr(&self) -> u8 {
        self.0[40]
    }

    pub fn normal(&self) -> u8 {
        self.0[41]
    }

    pub fn valid(&self) -> u8 {
        self.0[42]
    }

    pub fn image_sum(&self) -> u32 {
        u32::get(&self.0, 44)
    }

    pub fn snapshot_length(&self) -> u32 {
        u32::get(&self.0, 48)
    }

    pub fn snapshot_sum(&self) -> u32 {
        u32::get(&self.0, 52)
    }

    // The sum of all bytes of the list before it; only the last row has it.
    pub fn list_sum(&self) -> u32 {
        u32::get(&self.0, SUMMED)
    }

    // A group's name.
    pub fn name(&self) -> &[u8] {
        let end = 2 + usize::from(self.value()).min(NAME);
        &self.0[2..end]
    }

    // The bytes of a patch.
    pub fn patch(&self) -> &[u8] {
        let end = 24 + usize::from(self.value()).min(PATCH);
        &self.0[24..end]
    }
}
