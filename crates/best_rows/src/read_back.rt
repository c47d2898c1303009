//! A law of rows.
ghost use Rattle.std.specs.Prelude.{Bool};
ghost use Rattle.feed_types.specs.declared.journal.Notice.{Notice};
ghost use Rattle.run_settings.specs.declared.formats.BestFormat.TheVariants.{Csv};
ghost use Rattle.run_settings.specs.declared.formats.ValueStyle.{ValueStyle};
ghost use Rattle.run_settings.specs.VenueNames.{HaveVenueBytes};
ghost use Rattle.best_rows.specs.declared.row_time.RowTime.{RowTime};
ghost use Rattle.best_rows.specs.CsvFields.{HasWords, ReadsBack, csv_fields, csv_names};
ghost use Rattle.best_rows.specs.RowTexts.{csv_row, header_of};

/// Says that the kit's reader of comma-separated values gives back the names of the columns, and
/// the fields of each row, whatever follows.
pub fn csv_reads_back()
    ensures header { (style : ValueStyle) (timed : Bool)
        → ReadsBack (header_of (Csv style) timed) (csv_names timed) }
    ensures row { (style : ValueStyle) (time : RowTime) (n : Notice)
        → HaveVenueBytes style.venues → HasWords time n
        → ReadsBack (csv_row style time n) (csv_fields style time n) }
{}
