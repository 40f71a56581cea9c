// The run of a feature file.
ghost use Rattle.std.specs.Prelude.{◌≡◌};
ghost use Rattle.runfile.specs.Features.{features};
ghost use Rattle.runfile.specs.Reads.{remaining_if};
ghost use Rattle.listing.specs.Opening.{sightings_of};

use runfile::FileRun;
use runs::{FileFault, RunFault};
use space::Features;

// The longest file that is listed.
const LONGEST: usize = 16384;

// The run of a file, unless it is too long.
pub fn open(bytes: &[u8]) -> Result<FileRun<'_, Features>, RunFault>
    ensures { remaining_if features result ≡ sightings_of bytes.now }
{
    if bytes.len() > LONGEST {
        // `as`: a `u64` comes `From` no `usize`
        let length = bytes.len() as u64;
        return Err(FileFault::FileLength { length }.into());
    }
    FileRun::open(bytes)
}
