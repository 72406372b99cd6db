//! The names of a job's files.
ghost use Rattle.std.specs.Prelude.{◌≡◌, ◌++◌, IfOk, OnOk, string_bytes};
ghost use Rattle.hx_base.specs.Paths.{folder_of, part_of, path_of, rows_part};

use crate::refusal::JobFile;
use crate::{Name, Pixel};
use std::alloc::{AllocError, Global};

// How many pixels of an order have their files in one folder.
const IN_FOLDER: u64 = 10_000;

// The folder of a file, as it goes on behind the catalogue's name.
fn folder_of(file: JobFile) -> &'static str
    ensures { result.now ≡ folder_of file }
{
    match file {
        JobFile::Journal => ".work/",
        JobFile::Map(_) => ".work/",
        JobFile::Plan => ".work/",
        JobFile::Split(_) => ".work/",
        JobFile::Part(_) => "/",
        JobFile::MarginSplit(_) => ".work/",
        JobFile::Margin(_) => "_margin/",
        JobFile::List => "/",
        JobFile::MarginList => "_margin/",
        JobFile::MarginProperties => "_margin/",
        JobFile::Properties => "/",
    }
}

fn write_rows_part(path: &mut String, pixel: Pixel) -> Result<(), AllocError>
    ensures { OnOk result (string_bytes path.new ≡ string_bytes path.old ++ rows_part pixel) }
{
    let order = pixel.order;
    let number = pixel.number;
    let group = number / IN_FOLDER * IN_FOLDER;
    write!(
        path,
        "dataset/Norder={order}/Dir={group}/Npix={number}.parquet"
    )
}

// A file's name in its folder.
fn write_part(path: &mut String, file: JobFile, pixel: Pixel) -> Result<(), AllocError>
    ensures { OnOk result (string_bytes path.new ≡ string_bytes path.old ++ part_of file pixel) }
{
    match file {
        JobFile::Journal => path.push_str("journal"),
        JobFile::Map(input) => write!(path, "map-{input}"),
        JobFile::Plan => path.push_str("plan"),
        JobFile::Split(input) => write!(path, "split-{input}"),
        JobFile::Part(_) => write_rows_part(path, pixel),
        JobFile::MarginSplit(part) => write!(path, "msplit-{part}"),
        JobFile::Margin(_) => write_rows_part(path, pixel),
        JobFile::List => path.push_str("partition_info.csv"),
        JobFile::MarginList => path.push_str("partition_info.csv"),
        JobFile::MarginProperties => path.push_str("hats.properties"),
        JobFile::Properties => path.push_str("hats.properties"),
    }
}

/// The name of a file of the job that has a catalogue's name, its folders parted by `/`. The pixel is that of the
/// partition, and counts for `Part` and `Margin` alone.
pub fn job_path(
    alloc: Global,
    name: &Name,
    file: JobFile,
    pixel: Pixel,
) -> Result<String, AllocError>
    ensures { IfOk result (λ path. string_bytes path ≡ path_of name.now file pixel) }
{
    let mut path = String::from_str(alloc, name.as_str())?;
    path.push_str(folder_of(file))?;
    write_part(&mut path, file, pixel)?;
    Ok(path)
}

#[cfg(test)]
mod tests {
    use super::*;
    use std::test::Fail;

    #[test]
    fn names_of_files(rt: HostRuntime) -> Result<(), Fail> {
        let name = Name::new(rt.alloc(), "t")?.ok_or("no name")?;
        let pixel = Pixel {
            order: 7,
            number: 123_456,
        };
        let cases = [
            (JobFile::Journal, "t.work/journal"),
            (JobFile::Map(0), "t.work/map-0"),
            (JobFile::Plan, "t.work/plan"),
            (JobFile::Split(9999), "t.work/split-9999"),
            (
                JobFile::Part(3),
                "t/dataset/Norder=7/Dir=120000/Npix=123456.parquet",
            ),
            (JobFile::MarginSplit(99_999), "t.work/msplit-99999"),
            (
                JobFile::Margin(3),
                "t_margin/dataset/Norder=7/Dir=120000/Npix=123456.parquet",
            ),
            (JobFile::List, "t/partition_info.csv"),
            (JobFile::MarginList, "t_margin/partition_info.csv"),
            (JobFile::MarginProperties, "t_margin/hats.properties"),
            (JobFile::Properties, "t/hats.properties"),
        ];
        for (file, path) in cases {
            let found = job_path(rt.alloc(), &name, file, pixel)?;
            assert_eq!(rt; found.as_str(), path, "{file:?}");
        }
        Ok(())
    }

    #[test]
    fn folders_of_pixels(rt: HostRuntime) -> Result<(), Fail> {
        let name = Name::new(rt.alloc(), "t")?.ok_or("no name")?;
        let cases = [
            (0, 0, "t/dataset/Norder=0/Dir=0/Npix=0.parquet"),
            (5, 9_999, "t/dataset/Norder=5/Dir=0/Npix=9999.parquet"),
            (5, 10_000, "t/dataset/Norder=5/Dir=10000/Npix=10000.parquet"),
            (
                20,
                13_194_139_533_311,
                "t/dataset/Norder=20/Dir=13194139530000/Npix=13194139533311.parquet",
            ),
        ];
        for (order, number, path) in cases {
            let found = job_path(rt.alloc(), &name, JobFile::Part(0), Pixel { order, number })?;
            assert_eq!(rt; found.as_str(), path);
        }
        Ok(())
    }
}
