// The histogram file: reading it into lent bins and writing it into lent bytes.
ghost use Rattle.std.specs.Prelude.{◌≡◌, length};
ghost use Rattle.meaning.specs.Lent.{laid, counted};
ghost use Rattle.histogram.specs.Read.{read_histogram_of};
ghost use Rattle.histogram.specs.Write.{write_histogram_of};
ghost use Rattle.exports.specs.Flat.{say_written};
ghost use Rattle.exports.specs.FlatFile.{say_file};

use exports::answers::FlatWritten;
use exports::files::FlatFile;

#[unsafe(no_mangle)]
pub extern "C" fn fog_read_histogram(file: &[u8], bins: &mut [u32]) -> FlatFile
    ensures value { result ≡ say_file (counted (read_histogram_of file.now (length bins.old))) }
    ensures bins_after { bins.new
        ≡ laid (read_histogram_of file.now (length bins.old)) bins.old }
{
    exports::files::fog_read_histogram(file, bins)
}

#[unsafe(no_mangle)]
pub extern "C" fn fog_write_histogram(bins: &[u32], file: &mut [u8]) -> FlatWritten
    ensures value { result ≡ say_written (counted (write_histogram_of bins.now (length file.old))) }
    ensures file_after { file.new
        ≡ laid (write_histogram_of bins.now (length file.old)) file.old }
{
    exports::files::fog_write_histogram(bins, file)
}
