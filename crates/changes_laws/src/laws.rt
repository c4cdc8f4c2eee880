//! Laws, each stated as the contract of a function that does nothing.

ghost use Rattle.std.specs.Prelude.{◌≡◌, ◌↔◌, ◌⊎◌, ◌<◌, ◌^◌, ◌++◌, ◌∷◌, [], All, Bool, IsUtf8, List, Ok, Option, Some, codes, drop, length, true, ℕ};
ghost use Rattle.std.specs.List.{AllZip};
ghost use Rattle.wire_buf.specs.Encoding.{AreBytes};
ghost use Rattle.events_frames.specs.Headers.{Header};
ghost use Rattle.rows_table_map.specs.TableMaps.{TableMap};
ghost use Rattle.rows_event_body.specs.declared.rows_event_type.RowImages.{RowImages};
ghost use Rattle.rows_cells.specs.Cells.{cell_at};
ghost use Rattle.rows_cells.specs.Images.{ColumnValue, ImageShape, image_at};
ghost use Rattle.rows_cells.specs.CellValues.{CellValue};
ghost use Rattle.rows_cells.specs.declared.format.CellFormat.{CellFormat};
ghost use Rattle.rows_jsonb.specs.DocumentTrees.{document_tree};
ghost use Rattle.rows_jsonb.specs.JsonTrees.{Tree};
ghost use Rattle.feed_text.specs.DocumentForms.{IsDocumentIn};
ghost use Rattle.feed_checks.specs.Kinds.{Numbered};
ghost use Rattle.feed_transactions.specs.Changes.{Committed, EventChange};
ghost use Rattle.changes_tables.specs.ColumnParts.{column_parts};
ghost use Rattle.changes_tables.specs.ColumnsShown.{IsColumn};
ghost use Rattle.changes_tables.specs.MemberTexts.{utf8_json};
ghost use Rattle.changes_tables.specs.ShownColumns.{ColumnView};
ghost use Rattle.changes_tables.specs.declared.columns.TableOptions.{TableOptions};
ghost use Rattle.changes_writers.specs.JsonStrings.{json_string};
ghost use Rattle.changes_cells.specs.JsonDocuments.{json_form};
ghost use Rattle.changes_cells.specs.CellJson.{AreUpdatesJson, IsCellJson, IsDocumentJson};
ghost use Rattle.changes_lines.specs.ChangeLines.{AreChangesJson, AreLines, ChangeJson, key_of, rows_back, rows_front, transaction_lines};
ghost use Rattle.changes_lines.specs.Origins.{header_members, origin_members};
ghost use Rattle.changes_lines.specs.FactMembers.{TransactionFacts, query_member, transaction_members};
ghost use Rattle.changes_origins.specs.declared.added_members.AddedMembers.{AddedMembers};
ghost use Rattle.changes_origins.specs.GtidJson.{IsGtidJson, tagged_json};
ghost use Rattle.changes_origins.specs.MariadbGtids.{mariadb_json, MariadbGtid};
ghost use Rattle.changes_origins.specs.TaggedGtids.{IsTaggedGtid, TaggedGtid};
ghost use Rattle.changes_lines.specs.RowJson.{AreCellsJson, CellJson, IsRowJson, IsUpdate, object_json};
ghost use Rattle.changes_laws.specs.JsonGrammar.{IsAfterValue, IsChar, IsJsonText, IsNumber, IsString, IsValue, Json, array, boolean, element, member, no_elements, no_members, null, number, object};
ghost use Rattle.changes_laws.specs.JsonNames.{HasDistinctNames};
ghost use Rattle.changes_laws.specs.JsonLines.{AreLoggedFacts, AreLoggedFactsFrom, AreLoggedRows, AreObjectLines, IsCellShown, IsJsonValue, IsLoggedChange, IsLoggedGtid, IsLoggedHeader, IsTagRead};
ghost use Rattle.changes_laws.specs.SameDocuments.{HasFiniteDoubles, IsSameTree};
ghost use Rattle.changes_laws.specs.SameCells.{AreAscending, AreMembers, AreQueryBytes, IsAmong, IsChanged, IsFormatOf, IsSameCell, IsSameValue, IsToldColumn, IsUnset, ShowsFacts, ShowsHead, ShowsOrigin, columns_of, image_columns};

/// The string of a text in UTF-8 is a string of RFC 8259, and its characters are those of the text.
pub fn strings_have_their_characters()
    ensures { (s : List ℕ) → IsUtf8 s → IsString s (json_string s) }
{}

/// The JSON of a document, and that of partial updates, is a value of RFC 8259 without control characters, and no object in it has a member
/// twice.
pub fn documents_are_json()
    ensures documents { (b x : List ℕ) → AreBytes b → IsDocumentJson b x → IsJsonValue x }
    ensures updates { (b x : List ℕ) → AreBytes b → AreUpdatesJson b x → IsJsonValue x }
{}

/// The JSON of a cell that bytes begin with is such a value, if the members of its column are.
pub fn cells_are_json()
    ensures { (c : ColumnView) (f : CellFormat) (bytes rest x : List ℕ) (v : CellValue) → AreBytes bytes → cell_at f bytes ≡ Ok (v, rest) → All IsJsonValue c.members → IsCellJson c f v x → IsJsonValue x }
{}

/// Each line of a transaction is an object of RFC 8259 without control characters. It has no member twice, nor has an object in it. By the
/// second clause this holds for each tag of letters, digits and underscores, read from an event or not. The numbers on request have at
/// most 64 bits; `((lines.2).2).0` are the facts that `lines` show. `∥ ∥₁` means that there are such lines.
pub fn lines_are_json()
    ensures lines { (options : TableOptions) (added : AddedMembers) (by_transaction : Bool) (file : List ℕ) (t : Committed) (changes : List EventChange) (text : List ℕ) (lines : AreLines options added by_transaction file t changes text) → IsLoggedGtid t.gtid → IsLoggedHeader t.commit → All IsLoggedChange changes
        → AreLoggedRows added t.changes → AreLoggedFacts added ((lines.2).2).0 → ∥ AreObjectLines text ∥₁ }
    ensures tagged { (options : TableOptions) (added : AddedMembers) (by_transaction : Bool) (file body : List ℕ) (g : Option TaggedGtid) (t : Committed) (facts : TransactionFacts) (changes : List EventChange) (xs : List ChangeJson) → IsTagRead g → IsLoggedHeader t.commit → All IsLoggedChange changes
        → AreLoggedRows added t.changes → AreLoggedFacts added facts → AreChangesJson options added t.changes changes xs → ∥ AreObjectLines (transaction_lines by_transaction file t (tagged_json body g) (transaction_members added facts) xs) ∥₁ }
{}

/// A value shows where it ends, whatever follows it that may: texts that begin with a value, and then nothing, a comma or a closing bracket,
/// are equal only if the values' texts and what follows are.
pub fn values_show_where_they_end()
    ensures { (v w : Json) (x y s t : List ℕ) → IsValue v x → IsValue w y → IsAfterValue s → IsAfterValue t → x ++ s ≡ y ++ t → (x ≡ y) × (s ≡ t) }
{}

/// The line of a changed row of a table shows what happened, the time, the server, the JSON of the GTID, the file and the position; and then
/// what follows `"data":`.
pub fn lines_show_their_origin()
    ensures { (a b : RowImages) (m : TableMap) (h k : Header) (gtid other file name : List ℕ) (position place : ℕ) (s t : List ℕ) → IsLoggedHeader h → IsLoggedHeader k → IsJsonValue gtid → IsJsonValue other
        → AreBytes file → AreBytes name → position < 2 ^ 64 → place < 2 ^ 64
        → rows_front a m h ++ (origin_members gtid file position ++ (rows_back (key_of m) [] ++ s)) ≡ rows_front b m k ++ (origin_members other name place ++ (rows_back (key_of m) [] ++ t))
        → ShowsOrigin a b h k gtid other file name position place × (s ≡ t) }
{}

/// The line of a statement shows its schema, time and server, the JSON of the GTID, the file and the position, and its text.
pub fn statements_show_their_parts()
    ensures { (schema other query text : List ℕ) (h k : Header) (gtid next file name : List ℕ) (position place : ℕ) (s t : List ℕ) → IsLoggedHeader h → IsLoggedHeader k → IsJsonValue gtid → IsJsonValue next
        → AreBytes schema → AreBytes other → AreBytes query → AreBytes text → AreBytes file → AreBytes name → position < 2 ^ 64 → place < 2 ^ 64
        → (codes "{\"type\":\"statement\",\"database\":" ++ (utf8_json schema ++ header_members h)) ++ (origin_members gtid file position ++ (codes ",\"sql\":" ++ (utf8_json query ++ s)))
        ≡ (codes "{\"type\":\"statement\",\"database\":" ++ (utf8_json other ++ header_members k)) ++ (origin_members next name place ++ (codes ",\"sql\":" ++ (utf8_json text ++ t)))
        → (schema ≡ other) × (h.timestamp ≡ k.timestamp) × (h.server_id ≡ k.server_id) × (gtid ≡ next) × (file ≡ name) × (position ≡ place) × (query ≡ text) × (s ≡ t) }
{}

/// With members on request the line of a changed row shows these too: of its transaction those that are asked for, and the statement that
/// changed the rows.
pub fn lines_show_their_members()
    ensures rows { (added : AddedMembers) (a b : RowImages) (m : TableMap) (h k : Header) (gtid other file name : List ℕ) (position place : ℕ) (facts more : TransactionFacts) (query text : Option (List ℕ)) (s t : List ℕ) → IsLoggedHeader h → IsLoggedHeader k → IsJsonValue gtid → IsJsonValue other
        → AreBytes file → AreBytes name → position < 2 ^ 64 → place < 2 ^ 64 → AreLoggedFactsFrom added facts → AreLoggedFactsFrom added more → AreQueryBytes query → AreQueryBytes text
        → rows_front a m h ++ ((origin_members gtid file position ++ transaction_members added facts) ++ (rows_back (key_of m) (query_member added.query query) ++ s)) ≡ rows_front b m k ++ ((origin_members other name place ++ transaction_members added more) ++ (rows_back (key_of m) (query_member added.query text) ++ t))
        → ShowsOrigin a b h k gtid other file name position place × ShowsFacts added facts more × (added.query ≡ true → query ≡ text) × (s ≡ t) }
    ensures statements { (added : AddedMembers) (schema other query text : List ℕ) (h k : Header) (gtid next file name : List ℕ) (position place : ℕ) (facts more : TransactionFacts) (s t : List ℕ) → IsLoggedHeader h → IsLoggedHeader k → IsJsonValue gtid → IsJsonValue next
        → AreBytes schema → AreBytes other → AreBytes query → AreBytes text → AreBytes file → AreBytes name → position < 2 ^ 64 → place < 2 ^ 64 → AreLoggedFactsFrom added facts → AreLoggedFactsFrom added more
        → (codes "{\"type\":\"statement\",\"database\":" ++ (utf8_json schema ++ header_members h)) ++ ((origin_members gtid file position ++ transaction_members added facts) ++ (codes ",\"sql\":" ++ (utf8_json query ++ s)))
        ≡ (codes "{\"type\":\"statement\",\"database\":" ++ (utf8_json other ++ header_members k)) ++ ((origin_members next name place ++ transaction_members added more) ++ (codes ",\"sql\":" ++ (utf8_json text ++ t)))
        → (schema ≡ other) × ShowsHead h k gtid next file name position place × ShowsFacts added facts more × (query ≡ text) × (s ≡ t) }
{}

/// The line of a transaction shows the time and the server of its commit, the JSON of the GTID, the file and the position, and its members
/// on request; and then what follows `"changes":[`.
pub fn transactions_show_their_origin()
    ensures { (added : AddedMembers) (h k : Header) (gtid other file name : List ℕ) (position place : ℕ) (facts more : TransactionFacts) (s t : List ℕ) → IsLoggedHeader h → IsLoggedHeader k → IsJsonValue gtid → IsJsonValue other → AreBytes file → AreBytes name → position < 2 ^ 64 → place < 2 ^ 64
        → AreLoggedFactsFrom added facts → AreLoggedFactsFrom added more
        → 123 ∷ (drop 1 (header_members h ++ (origin_members gtid file position ++ transaction_members added facts)) ++ (codes ",\"changes\":[" ++ s)) ≡ 123 ∷ (drop 1 (header_members k ++ (origin_members other name place ++ transaction_members added more)) ++ (codes ",\"changes\":[" ++ t))
        → ShowsHead h k gtid other file name position place × ShowsFacts added facts more × (s ≡ t) }
{}

/// Equal JSON of two GTIDs without tags comes from equal UUIDs and equal numbers, and that of two with tags, which are read from the
/// bodies `a` and `b` of their events, from equal tags too. That of two of MariaDB comes from equal domains, servers and numbers.
pub fn gtids_show_their_numbers()
    ensures tagged { (a b : List ℕ) (g h : TaggedGtid) → IsTaggedGtid a (Some g) → IsTaggedGtid b (Some h) → g.number < 2 ^ 64 → tagged_json a (Some g) ≡ tagged_json b (Some h) → g ≡ h }
    ensures mariadb { (g h : MariadbGtid) → g.domain < 2 ^ 64 → g.server < 2 ^ 64 → g.sequence < 2 ^ 64 → mariadb_json g ≡ mariadb_json h → g ≡ h }
    ensures numbered { (u v : List ℕ) (m n : ℕ) (x : List ℕ) → AreBytes u → AreBytes v → length u ≡ 16 → length v ≡ 16 → m < 2 ^ 64 → IsGtidJson (Some (Numbered u m)) x → IsGtidJson (Some (Numbered v n)) x → (u ≡ v) × (m ≡ n) }
{}

/// An object of columns of one table shows its cells: their columns, the JSON of each, and where it ends.
pub fn objects_show_their_cells()
    ensures { (options : TableOptions) (m : TableMap) (columns : List ColumnView) (a b : List CellJson) (s t : List ℕ) → length m.column_types < 2 ^ 64 → AllZip (IsColumn options) (column_parts m) columns
        → All (IsCellShown (length m.column_types)) a → All (IsCellShown (length m.column_types)) b → object_json columns a ++ s ≡ object_json columns b ++ t → (a ≡ b) × (s ≡ t) }
{}

/// Cells of one column that have the same JSON have the same value: the same number, decimal, date, time, member or members, the same
/// bytes, or bytes with the same text in the column's character set. Floats are the same by their bits, NaNs count as one. This isn't
/// stated of documents.
pub fn cells_show_their_values()
    ensures { (c : ColumnView) (f : CellFormat) (a b r s x : List ℕ) (v w : CellValue) → IsFormatOf c.shown f → AreMembers c.members → AreBytes a → AreBytes b → cell_at f a ≡ Ok (v, r) → cell_at f b ≡ Ok (w, s)
        → IsCellJson c f v x → IsCellJson c f w x → IsSameCell c.shown v w }
{}

/// Documents with the same JSON have the same structure, the same keys and the same values: equal integers, doubles, strings, booleans and
/// values of other types, decimals with the same digits, dates and times of the same kind with the same text. Doubles are finite.
pub fn documents_show_their_values()
    ensures { (a b x : List ℕ) (t u : Tree) → AreBytes a → AreBytes b → document_tree a ≡ Ok t → document_tree b ≡ Ok u → HasFiniteDoubles t → HasFiniteDoubles u → IsDocumentIn json_form t x → IsDocumentIn json_form u x → IsSameTree t u }
{}

/// Images of one shape with equal objects have the same values, NULLs among them. Tables with documents are left out.
pub fn images_show_their_values()
    ensures { (options : TableOptions) (m : TableMap) (columns : List ColumnView) (shape : ImageShape) (a b r q : List ℕ) (vs ws : List ColumnValue) (xs ys : List CellJson) (s t : List ℕ) → length m.column_types < 2 ^ 64
        → AllZip (IsColumn options) (column_parts m) columns → All (IsToldColumn (length m.column_types) columns) shape.columns → AreBytes a → AreBytes b → image_at shape a ≡ Ok (vs, r) → image_at shape b ≡ Ok (ws, q)
        → AreCellsJson columns shape.columns vs xs → AreCellsJson columns shape.columns ws ys → object_json columns xs ++ s ≡ object_json columns ys ++ t → AllZip (IsSameValue columns) vs ws × (s ≡ t) }
{}

/// The row after an update has the cells of the image after it, and those of the image before it whose columns aren't set; `old` has the
/// cells of the image before it whose columns have other JSON after it.
pub fn updates_are_their_images()
    ensures newest { (before after newest old : List CellJson) (x : CellJson) → IsUpdate before after newest old → AreAscending (columns_of before) → AreAscending (columns_of after) → IsAmong x newest ↔ (IsAmong x after ⊎ (IsAmong x before × IsUnset after x)) }
    ensures old { (before after newest old : List CellJson) (x : CellJson) → IsUpdate before after newest old → AreAscending (columns_of before) → AreAscending (columns_of after) → IsAmong x old ↔ (IsAmong x before × IsChanged after x) }
{}

/// Rows of updates of the same columns with equal JSON have the same values before the update, and the same after it. Tables with documents
/// are left out.
pub fn updates_show_their_values()
    ensures { (options : TableOptions) (m : TableMap) (columns : List ColumnView) (before after : ImageShape) (a b c d r p q l : List ℕ) (vs us ws xs : List ColumnValue) (x : List ℕ) → length m.column_types < 2 ^ 64 → AllZip (IsColumn options) (column_parts m) columns
        → All (IsToldColumn (length m.column_types) columns) before.columns → All (IsToldColumn (length m.column_types) columns) after.columns → AreAscending (image_columns before)
        → AreBytes a → AreBytes b → AreBytes c → AreBytes d → image_at before a ≡ Ok (vs, r) → image_at after b ≡ Ok (us, p) → image_at before c ≡ Ok (ws, q) → image_at after d ≡ Ok (xs, l)
        → IsRowJson columns (before ∷ after ∷ []) (vs ∷ us ∷ []) x → IsRowJson columns (before ∷ after ∷ []) (ws ∷ xs ∷ []) x → AllZip (IsSameValue columns) vs ws × AllZip (IsSameValue columns) us xs }
{}

/// `{ "a" : [true , -1.5E+2]}` and a line feed are JSON, and a string with a solidus, a code and a surrogate pair has their characters; a
/// number doesn't begin with a plus, nor with a zero before another digit, no character is a line feed, and equal names aren't distinct.
pub fn worked_texts()
    ensures text { IsJsonText (object (member (codes "a") (array (element (boolean true) (element (number (codes "-1.5E+2")) no_elements))) no_members)) (codes "{ \"a\" : [true , -1.5E+2]}\n") }
    ensures escapes { IsString (47 ∷ 195 ∷ 169 ∷ 240 ∷ 159 ∷ 152 ∷ 128 ∷ []) (codes "\"\\/\\u00E9\\ud83d\\ude00\"") }
    ensures leading_zero { ¬ (IsNumber (codes "01")) }
    ensures plus { ¬ (IsNumber (codes "+1")) }
    ensures line_feed { (c : ℕ) → ¬ (IsChar c (10 ∷ [])) }
    ensures equal_names { ¬ (HasDistinctNames (object (member (codes "a") null (member (codes "b") null (member (codes "a") null no_members))))) }
{}
