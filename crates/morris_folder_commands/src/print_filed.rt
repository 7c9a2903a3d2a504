//! What `build` prints of a file in a folder.
ghost use Rattle.std.specs.Prelude.{[], ◌∷◌, ◌++◌, codes};
ghost use Rattle.hex.specs.Hex.{encode_lower};
ghost use Rattle.morris_board.specs.Printers.{Takes};

use hex::encode_to_slice;
use morris_board::board::Geometry;
use morris_board::streams::Sink;
use morris_board::streams::printed::Printed;
use morris_board::streams::printer::Printer;
use morris_files::table_file::Written;
use morris_jobs::pairs::put_pair;
use morris_probe::print::put_count;

/// What `build` prints of a file that was written into a folder.
#[derive(Drop)]
pub struct Filed<'a, B: Geometry> {
    /// The file.
    pub file: &'a Written<B>,
}

#[tactic(auto, using(morris_board::proofs::PrinterLaws::takes_laws), unfolding(crate::specs::Into::filed_text))]
impl<'a, B: Geometry> Printed for Filed<'a, B> {
    ghost use Rattle.std.specs.Prelude.{◌≤◌, ◌^◌, length};
    ghost use Rattle.morris_folder_commands.specs.Into.{filed_text};

    ghost bytes = { λ filed. filed_text filed.file.now.pair filed.file.now.entries filed.file.now.bytes filed.file.now.digest };

    ghost is_short = { λ filed. length (filed_text filed.file.now.pair filed.file.now.entries filed.file.now.bytes filed.file.now.digest) ≤ 2 ^ 10 };

    fn put_into<S: Sink>(&self, out: &mut Printer<'_, S>) {
        put_pair(out, self.file.pair);
        put_count(out, " ", self.file.entries);
        put_count(out, " entries ", self.file.bytes);
        put_digest(out, &self.file.digest);
    }
}

/// The end of the line: the digest of the file.
#[tactic(auto, using(morris_board::proofs::PrinterLaws::takes_laws))]
fn put_digest<S: Sink>(out: &mut Printer<'_, S>, digest: &[u8; 32])
    ensures { Takes S.contents S.failures out.old out.new (codes " bytes " ++ encode_lower digest.now ++ (10 ∷ [])) }
{
    let mut digits = [0; 64];
    let _ = encode_to_slice(digest, &mut digits);
    out.put(" bytes ");
    out.put_bytes(&digits);
    out.put("\n");
}
