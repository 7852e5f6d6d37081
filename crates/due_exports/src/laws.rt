//! Laws of the functions in specs/. Nothing here runs.
ghost use Rattle.std.specs.Prelude.{◌≡◌, ◌<◌, ◌≤◌, ◌^◌, ℕ, ℤ, List, ◌∷◌, Some, length, map, All};
ghost use Rattle.std.specs.List.{flat_map};
ghost use Rattle.court_days.specs.Court.{CourtSettings};
ghost use Rattle.csv.specs.Reading.{default_config, records};
ghost use Rattle.docket_history.specs.declared.record.DueRow.{DueRow};
ghost use Rattle.docket_history.specs.declared.row.CaseRow.{CaseRow};
ghost use Rattle.icalendar.specs.ContentLines.{ended, physical_lines, unfolded};
ghost use Rattle.serde_json.specs.Data.{array};
ghost use Rattle.serde_json.specs.Read.{read};
ghost use Rattle.serde_json.specs.Written.{compact_text};
ghost use Rattle.due_exports.specs.Objects.{due_object};
ghost use Rattle.due_exports.specs.Records.{field_names, due_fields};
ghost use Rattle.due_exports.specs.Texts.{Told, IsNumbered, export_text, calendar_lines, objects_of};
ghost use Rattle.due_exports.specs.declared.form.Form.TheVariants.{Calendar, Csv, Json};

/// A table of comma-separated values, read, is the record of the names and a record a deadline, each with
/// its nine fields, whatever the texts are.
pub fn records_are_read_back()
    ensures { (court : CourtSettings) (stamp : ℤ) (from to : ℕ) (told : List Told)
        → records default_config (export_text Csv court stamp from to told)
        ≡ field_names ∷ map (λ t. due_fields court t.0 t.1) told }
{}

/// No physical line of a calendar has more than 75 octets. Unfolded, it is the lines of its head, of an
/// event a deadline, and of its foot, whatever the texts are.
pub fn calendars_are_folded()
    ensures short { (court : CourtSettings) (stamp : ℤ) (from to : ℕ) (told : List Told)
        → All (λ part. length part ≤ 75) (physical_lines (export_text Calendar court stamp from to told)) }
    ensures unfolded { (court : CourtSettings) (stamp : ℤ) (from to : ℕ) (told : List Told)
        → unfolded (export_text Calendar court stamp from to told) ≡ flat_map ended (calendar_lines stamp told) }
{}

/// An object of JSON, read, is the object with these members, whatever the texts are; and a whole export,
/// read, is the array of the objects.
pub fn objects_are_read_back()
    ensures object { (court : CourtSettings) (due : DueRow) (case : CaseRow)
        → due.case < 2 ^ 64 → due.number < 2 ^ 64 → due.party < 2 ^ 64
        → read (compact_text (due_object court due case)) ≡ Some (due_object court due case) }
    ensures whole { (court : CourtSettings) (stamp : ℤ) (from to : ℕ) (told : List Told) → All IsNumbered told
        → read (export_text Json court stamp from to told) ≡ Some (array (objects_of court told)) }
{}
