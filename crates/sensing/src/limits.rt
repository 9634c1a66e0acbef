// The ceilings of 256 cells, worked out once for all that they sense.
ghost use Rattle.std.specs.Prelude.{◌≡◌, ◌-◌, ◌<◌, ◌≤◌};
ghost use Rattle.lists.specs.Lists.{tabulate, at};
ghost use Rattle.cell.specs.Cell.{ceiling_of, ceiling_table, sensed_byte, sensed_page, page_bytes, array_bytes};

use cell::classes::classes;
use cell::{PAGE, PAGE_CELLS, Sense};

const NORMAL: [u64; 16] = [
    3332315058476564154,
    3540584749631349414,
    3748854440786134674,
    3957124131940919933,
    4165393823095705193,
    4373663514250490453,
    4581933205405275712,
    4790202896560060972,
    4998472587714846232,
    5206742278869631491,
    5415011970024416751,
    5623281661179202011,
    5831551352333987270,
    6039821043488772530,
    6248090734643557790,
    6456360425798343050,
];

const PROGRAM_VERIFY: [u64; 16] = [
    6664630116953128309,
    7081169499262698829,
    7497708881572269348,
    7914248263881839867,
    8330787646191410387,
    8747327028500980906,
    9163866410810551425,
    9580405793120121945,
    9996945175429692464,
    10413484557739262983,
    10830023940048833503,
    11246563322358404022,
    11663102704667974541,
    12079642086977545061,
    12496181469287115580,
    12912720851596686100,
];

const ERASE_VERIFY: [u64; 16] = [
    1,
    50440315826549556,
    100880631653099111,
    151320947479648666,
    201761263306198221,
    252201579132747776,
    302641894959297331,
    353082210785846886,
    403522526612396441,
    453962842438945996,
    504403158265495551,
    554843474092045106,
    605283789918594661,
    655724105745144217,
    706164421571693772,
    756604737398243327,
];

// The ceiling of each class.
fn row(m: Sense) -> [u64; 16]
    ensures { result ≡ tabulate (ceiling_of m) 16 }
{
    match m {
        Sense::Normal => NORMAL,
        Sense::ProgramVerify => PROGRAM_VERIFY,
        Sense::EraseVerify => ERASE_VERIFY,
    }
}

// The ceilings of a mode: that of the cell i = 8 × address + bit stands at i mod 256.
#[derive(Clone, Copy)]
pub struct Ceilings {
    pub sense: Sense,
    pub limits: [u64; 256],
    pub ghost is: { limits ≡ ceiling_table sense },
}

impl Ceilings {
    pub fn of(sense: Sense) -> Ceilings
        ensures { result.sense ≡ sense }
    {
        let table = classes();
        let by_class = row(sense);
        let mut limits = [0u64; 256];
        for (i, class) in table.iter().enumerate() {
            limits[i] = by_class[usize::from(*class % 16)];
        }
        Ceilings { sense, limits }
    }

    // The byte that the eight cells at an address sense.
    pub fn sense_byte(&self, address: usize, cells: &[u64; 8]) -> u8
        requires { address < array_bytes }
        ensures { result ≡ sensed_byte self.now.sense address (at cells.now) }
    {
        let mut byte = 0;
        for (k, cell) in cells.iter().enumerate() {
            byte += u8::from(*cell < self.limits[(8 * address + k) % 256]) << k;
        }
        byte
    }

    // The 128 bytes that a page's cells sense; the page begins at `address`.
    pub fn sense_page(&self, address: usize, cells: &[u64; PAGE_CELLS], out: &mut [u8; PAGE])
        requires { address ≤ array_bytes - page_bytes }
        ensures { out.new ≡ sensed_page self.now.sense address cells.now out.old }
    {
        let (bytes, _) = cells.as_chunks::<8>();
        for (i, byte) in out.iter_mut().enumerate() {
            *byte = self.sense_byte(address + i, &bytes[i]);
        }
    }
}
