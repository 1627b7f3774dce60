//! An example of each message, worked by hand after the documentation's "Message Formats": these
//! bytes of a body mean this value. Laws of formats hold of other numbers too; these don't. Longer
//! examples stand in `specs/Examples.antt`, the bytes of each beside the value.

ghost use Rattle.std.specs.Prelude.{◌≡◌, true, false, [], ◌∷◌, ◌++◌, codes, Some, None};
ghost use Rattle.pg_base.specs.declared.error.ProtocolFault.TheVariants.{UnknownCode};
ghost use Rattle.pg_base.specs.declared.format.BackendMessageFormat.TheVariants as backend;
ghost use Rattle.pg_base.specs.declared.format.FrontendMessageFormat.TheVariants as frontend;
ghost use Rattle.pg_format.specs.Examples.{IsExample, IsFaultExample, IsServerExample, IsClientExample, IsWrittenExample, IgnoresABody, RefusesABody};
ghost use Rattle.pg_format.specs.Examples.{request_for_nothing, request_for_a_password, request_for_md5, request_for_sasl, challenge_of_sasl, end_of_sasl, data_of_gss, request_for_md5_among_all, request_by_method_13, column_of_a_table, column_of_no_table, copy_of_two_columns, copy_of_no_columns, row_of_three_values, key_of_four_bytes, tag_of_an_insert, three_bytes, error_of_three_fields, notice_of_three_fields, news_of_jobs, two_types, setting_of_the_time_zone, two_unknown_options, key_of_five_bytes, bind_of_three_values, statement_s, portal_p, portal_without_a_name, portal_with_a_limit, call_with_an_argument, statement_with_a_type, text_of_a_query, text_of_a_failure, mechanism_with_data, mechanism_without_data, mechanism_with_a_bad_length, startup_of_ann, startup_and_a_byte, startup_without_a_value, cancel_by_four_bytes, cancel_by_256_bytes, cancel_by_three_bytes, cancel_by_257_bytes, severity_inf};
ghost use Rattle.pg_format.specs.Format.{Means, IsFaultOf};
ghost use Rattle.pg_format.specs.Messages.{from_server, from_client, any_authentication, backend_key, copy_response, function_call_response, gss_response, negotiate_protocol_version, text, sasl_initial_response, sasl_response, first_message, opening, tls, gssapi};
ghost use Rattle.pg_format.specs.Examples.{piece_of_a_log, keepalive_that_asks, update_of_three_positions, feedback_of_two_transactions, archive_of_a_tablespace, progress_of_258_bytes, progress_and_a_byte};
ghost use Rattle.pg_format.specs.Examples.{begin_739, message_to_ab, commit_of_begin, origin_far, table_of_a_column, type_mood, insert_of_four_values, update_of_a_key, update_without_the_old, delete_of_a_row, truncate_of_two, stream_of_739, stream_commit_739, stream_abort_740, begin_of_g, prepare_of_g, rollback_of_g, delete_of_a_new_row};
ghost use Rattle.pg_format.specs.Logical.{change, delete, logical_letter};
ghost use Rattle.pg_format.specs.declared.logical.LogicalKind.TheVariants as logical;
ghost use Rattle.pg_format.specs.Replication.{standby_status_update, hot_standby_feedback, progress, in_copy_data, replication_letter};
ghost use Rattle.pg_format.specs.declared.replication.ReplicationKind.TheVariants as kinds;
ghost use Rattle.pg_format.specs.Tables.{ok, cleartext_password, md5_password, sasl, sasl_continue, sasl_final, method_number, kerberos_v5, scm_credential, gss, sspi, idle, transaction, error};

/// The six methods of authentication, by their numbers.
pub fn examples_of_authentication()
    ensures ok { IsServerExample backend.Authentication request_for_nothing }
    ensures cleartext { IsServerExample backend.Authentication request_for_a_password }
    ensures md5 { IsServerExample backend.Authentication request_for_md5 }
    ensures sasl { IsServerExample backend.Authentication request_for_sasl }
    ensures continued { IsServerExample backend.Authentication challenge_of_sasl }
    ensures finished { IsServerExample backend.Authentication end_of_sasl }
    ensures ok_is_0 { method_number ok ≡ 0 }
    ensures cleartext_is_3 { method_number cleartext_password ≡ 3 }
    ensures md5_is_5 { method_number (md5_password []) ≡ 5 }
    ensures sasl_is_10 { method_number (sasl []) ≡ 10 }
    ensures continued_is_11 { method_number (sasl_continue []) ≡ 11 }
    ensures finished_is_12 { method_number (sasl_final []) ≡ 12 }
{}

/// The methods of Kerberos, of SCM credentials, of GSSAPI with its data, and of SSPI; one of the six above, and one that
/// there is not.
pub fn examples_of_any_authentication()
    ensures kerberos_v5 { Means any_authentication (0 ∷ 0 ∷ 0 ∷ 2 ∷ []) kerberos_v5 }
    ensures scm_credential { Means any_authentication (0 ∷ 0 ∷ 0 ∷ 6 ∷ []) scm_credential }
    ensures gss { Means any_authentication (0 ∷ 0 ∷ 0 ∷ 7 ∷ []) gss }
    ensures gss_continue { IsExample any_authentication data_of_gss }
    ensures sspi { Means any_authentication (0 ∷ 0 ∷ 0 ∷ 9 ∷ []) sspi }
    ensures one_of_the_six { IsExample any_authentication request_for_md5_among_all }
    ensures of_no_method { IsExample any_authentication request_by_method_13 }
{}

/// The letters of a session's status: `I`, `T` and `E`.
pub fn examples_of_statuses()
    ensures idle { Means (from_server backend.ReadyForQuery).format (73 ∷ []) idle }
    ensures transaction { Means (from_server backend.ReadyForQuery).format (84 ∷ []) transaction }
    ensures error { Means (from_server backend.ReadyForQuery).format (69 ∷ []) error }
{}

/// Columns of a table and of none; what is copied, with columns and with a count below 0; and a row
/// with a value, NULL and an empty value.
pub fn examples_of_columns()
    ensures of_a_table { IsServerExample backend.RowDescription column_of_a_table }
    ensures of_no_table { IsServerExample backend.RowDescription column_of_no_table }
    ensures copied_in { IsServerExample backend.CopyInResponse copy_of_two_columns }
    ensures copied_out { IsServerExample backend.CopyOutResponse copy_of_no_columns }
    ensures row { IsServerExample backend.DataRow row_of_three_values }
{}

/// The other messages from a server.
pub fn examples_from_a_server()
    ensures backend_key_data { IsServerExample backend.BackendKeyData key_of_four_bytes }
    ensures bind_complete { Means (from_server backend.BindComplete).format [] tt }
    ensures close_complete { Means (from_server backend.CloseComplete).format [] tt }
    ensures command_complete { IsServerExample backend.CommandComplete tag_of_an_insert }
    ensures copy_data { IsServerExample backend.CopyData three_bytes }
    ensures copy_done { Means (from_server backend.CopyDone).format [] tt }
    ensures empty_query_response { Means (from_server backend.EmptyQueryResponse).format [] tt }
    ensures error_response { IsServerExample backend.ErrorResponse error_of_three_fields }
    ensures no_data { Means (from_server backend.NoData).format [] tt }
    ensures notice_response { IsServerExample backend.NoticeResponse notice_of_three_fields }
    ensures notification_response { IsServerExample backend.NotificationResponse news_of_jobs }
    ensures parameter_description { IsServerExample backend.ParameterDescription two_types }
    ensures parameter_status { IsServerExample backend.ParameterStatus setting_of_the_time_zone }
    ensures parse_complete { Means (from_server backend.ParseComplete).format [] tt }
    ensures portal_suspended { Means (from_server backend.PortalSuspended).format [] tt }
{}

/// Messages from a server without a kind: what is copied both ways, the result of a call, NULL, and the version of a server
/// with options that it doesn't know; and a key of five bytes.
pub fn examples_of_other_messages()
    ensures copied_both { IsExample copy_response copy_of_no_columns }
    ensures called { Means function_call_response (0 ∷ 0 ∷ 0 ∷ 2 ∷ 9 ∷ 0 ∷ []) (Some (9 ∷ 0 ∷ [])) }
    ensures called_null { Means function_call_response (255 ∷ 255 ∷ 255 ∷ 255 ∷ []) None }
    ensures negotiated { IsExample negotiate_protocol_version two_unknown_options }
    ensures key_of_five_bytes { IsExample backend_key key_of_five_bytes }
{}

/// Messages from a client: names of statements and portals, texts, values, NULL and an empty value.
pub fn examples_from_a_client()
    ensures bind { IsClientExample frontend.Bind bind_of_three_values }
    ensures close_statement { IsClientExample frontend.Close statement_s }
    ensures close_portal { IsClientExample frontend.Close portal_p }
    ensures describe_statement { IsClientExample frontend.Describe statement_s }
    ensures describe_portal { IsClientExample frontend.Describe portal_without_a_name }
    ensures execute { IsClientExample frontend.Execute portal_with_a_limit }
    ensures flush { Means (from_client frontend.Flush).format [] tt }
    ensures function_call { IsClientExample frontend.FunctionCall call_with_an_argument }
    ensures parse { IsClientExample frontend.Parse statement_with_a_type }
    ensures query { IsClientExample frontend.Query text_of_a_query }
    ensures sync { Means (from_client frontend.Sync).format [] tt }
    ensures terminate { Means (from_client frontend.Terminate).format [] tt }
    ensures copy_done { Means (from_client frontend.CopyDone).format [] tt }
    ensures copy_data { IsClientExample frontend.CopyData three_bytes }
    ensures copy_fail { IsClientExample frontend.CopyFail text_of_a_failure }
    ensures password { IsClientExample frontend.PasswordPolymorphic three_bytes }
    ensures password_message { Means text (codes "secret" ++ 0 ∷ []) (codes "secret") }
    ensures sasl_initial_response { IsExample sasl_initial_response mechanism_with_data }
    ensures sasl_initial_none { IsExample sasl_initial_response mechanism_without_data }
    ensures sasl_initial_length { IsFaultExample sasl_initial_response mechanism_with_a_bad_length }
    ensures sasl_response { Means sasl_response (codes "c=biws") (codes "c=biws") }
    ensures gss_response { IsExample gss_response three_bytes }
{}

/// Messages without a tag: their numbers, two minor versions, and keys of 4 and of 256 bytes; 3 or 257 are a fault, and
/// so are bytes after a Startup, a name without its value, and a code of no message.
pub fn examples_without_a_tag()
    ensures startup { IsExample first_message startup_of_ann }
    ensures minor_version { Means first_message (0 ∷ 3 ∷ 0 ∷ 2 ∷ 0 ∷ []) (opening 2 []) }
    ensures startup_and_more { IsFaultExample first_message startup_and_a_byte }
    ensures name_without_a_value { IsFaultExample first_message startup_without_a_value }
    ensures cancel_request { IsExample first_message cancel_by_four_bytes }
    ensures longest_key { IsExample first_message cancel_by_256_bytes }
    ensures short_key { IsFaultExample first_message cancel_by_three_bytes }
    ensures long_key { IsFaultExample first_message cancel_by_257_bytes }
    ensures ssl_request { Means first_message (4 ∷ 210 ∷ 22 ∷ 47 ∷ []) tls }
    ensures gss_enc_request { Means first_message (4 ∷ 210 ∷ 22 ∷ 48 ∷ []) gssapi }
    ensures unknown_code { IsFaultOf first_message (4 ∷ 210 ∷ 22 ∷ 49 ∷ []) (UnknownCode 80877105) }
{}

/// Errors and notices with a severity that is no word of those that there are.
pub fn examples_of_severities()
    ensures of_error { IsFaultExample (from_server backend.ErrorResponse).format severity_inf }
    ensures of_notice { IsFaultExample (from_server backend.NoticeResponse).format severity_inf }
{}

/// A byte where no body is due: from a server it is ignored, from a client it is a fault.
pub fn examples_of_no_body()
    ensures bound_with_a_body { IgnoresABody (from_server backend.BindComplete).format }
    ensures closed_with_a_body { IgnoresABody (from_server backend.CloseComplete).format }
    ensures copied_with_a_body { IgnoresABody (from_server backend.CopyDone).format }
    ensures empty_query_with_a_body { IgnoresABody (from_server backend.EmptyQueryResponse).format }
    ensures no_data_with_a_body { IgnoresABody (from_server backend.NoData).format }
    ensures parsed_with_a_body { IgnoresABody (from_server backend.ParseComplete).format }
    ensures suspended_with_a_body { IgnoresABody (from_server backend.PortalSuspended).format }
    ensures flush_with_a_body { RefusesABody (from_client frontend.Flush).format }
    ensures sync_with_a_body { RefusesABody (from_client frontend.Sync).format }
    ensures terminate_with_a_body { RefusesABody (from_client frontend.Terminate).format }
    ensures sent_copy_done_with_a_body { RefusesABody (from_client frontend.CopyDone).format }
{}

/// What is written of a request for authentication: the number of its method, then what it carries.
pub fn examples_of_writing()
    ensures cleartext_written { IsWrittenExample backend.Authentication request_for_a_password }
    ensures md5_written { IsWrittenExample backend.Authentication request_for_md5 }
{}

/// The messages of replication by their letters: `w`, `k`, `r` and `h` of a log, `n`, `m`, `d` and `p` of a backup; bytes
/// after one are a fault.
pub fn examples_of_replication()
    ensures xlog_data { IsExample (in_copy_data kinds.XLogData).format piece_of_a_log }
    ensures keepalive { IsExample (in_copy_data kinds.PrimaryKeepalive).format keepalive_that_asks }
    ensures status_update { IsExample standby_status_update update_of_three_positions }
    ensures feedback { IsExample hot_standby_feedback feedback_of_two_transactions }
    ensures new_archive { IsExample (in_copy_data kinds.NewArchive).format archive_of_a_tablespace }
    ensures manifest { Means (in_copy_data kinds.Manifest).format [] tt }
    ensures backup_data { IsExample (in_copy_data kinds.BackupData).format three_bytes }
    ensures progress { IsExample (in_copy_data kinds.Progress).format progress_of_258_bytes }
    ensures progress_and_more { IsFaultExample progress progress_and_a_byte }
    ensures xlog_data_is_w { replication_letter kinds.XLogData ≡ 119 }
    ensures keepalive_is_k { replication_letter kinds.PrimaryKeepalive ≡ 107 }
    ensures status_update_is_r { replication_letter kinds.StandbyStatusUpdate ≡ 114 }
    ensures feedback_is_h { replication_letter kinds.HotStandbyFeedback ≡ 104 }
    ensures new_archive_is_n { replication_letter kinds.NewArchive ≡ 110 }
    ensures manifest_is_m { replication_letter kinds.Manifest ≡ 109 }
    ensures backup_data_is_d { replication_letter kinds.BackupData ≡ 100 }
    ensures progress_is_p { replication_letter kinds.Progress ≡ 112 }
{}

/// The messages of logical replication, in a streamed transaction and outside of one.
pub fn examples_of_logical_replication()
    ensures begin_739 { IsExample (change false logical.Begin) begin_739 }
    ensures message_to_ab { IsExample (change true logical.Message) message_to_ab }
    ensures commit_of_begin { IsExample (change false logical.Commit) commit_of_begin }
    ensures origin_far { IsExample (change true logical.Origin) origin_far }
    ensures table_of_a_column { IsExample (change false logical.Relation) table_of_a_column }
    ensures type_mood { IsExample (change false logical.TypeName) type_mood }
    ensures insert_of_four_values { IsExample (change false logical.Insert) insert_of_four_values }
    ensures update_of_a_key { IsExample (change true logical.Update) update_of_a_key }
    ensures update_without_the_old { IsExample (change false logical.Update) update_without_the_old }
    ensures delete_of_a_row { IsExample (change false logical.Delete) delete_of_a_row }
    ensures truncate_of_two { IsExample (change false logical.Truncate) truncate_of_two }
    ensures stream_of_739 { IsExample (change false logical.StreamStart) stream_of_739 }
    ensures stream_commit_739 { IsExample (change false logical.StreamCommit) stream_commit_739 }
    ensures stream_abort_740 { IsExample (change false logical.StreamAbort) stream_abort_740 }
    ensures begin_of_g { IsExample (change false logical.BeginPrepare) begin_of_g }
    ensures prepare_of_g { IsExample (change false logical.Prepare) prepare_of_g }
    ensures rollback_of_g { IsExample (change false logical.RollbackPrepared) rollback_of_g }
    ensures stream_stop { Means (change false logical.StreamStop) [] tt }
    ensures commit_prepared { IsExample (change false logical.CommitPrepared) prepare_of_g }
    ensures stream_prepare { IsExample (change false logical.StreamPrepare) prepare_of_g }
    ensures delete_of_a_new_row { IsFaultExample (delete false) delete_of_a_new_row }
{}

/// The letters of the messages of logical replication.
pub fn letters_of_logical_replication()
    ensures begin { logical_letter logical.Begin ≡ 66 }
    ensures message { logical_letter logical.Message ≡ 77 }
    ensures commit { logical_letter logical.Commit ≡ 67 }
    ensures origin { logical_letter logical.Origin ≡ 79 }
    ensures relation { logical_letter logical.Relation ≡ 82 }
    ensures type_name { logical_letter logical.TypeName ≡ 89 }
    ensures insert { logical_letter logical.Insert ≡ 73 }
    ensures update { logical_letter logical.Update ≡ 85 }
    ensures delete { logical_letter logical.Delete ≡ 68 }
    ensures truncate { logical_letter logical.Truncate ≡ 84 }
    ensures stream_start { logical_letter logical.StreamStart ≡ 83 }
    ensures stream_stop { logical_letter logical.StreamStop ≡ 69 }
    ensures stream_commit { logical_letter logical.StreamCommit ≡ 99 }
    ensures stream_abort { logical_letter logical.StreamAbort ≡ 65 }
    ensures begin_prepare { logical_letter logical.BeginPrepare ≡ 98 }
    ensures prepare { logical_letter logical.Prepare ≡ 80 }
    ensures commit_prepared { logical_letter logical.CommitPrepared ≡ 75 }
    ensures rollback_prepared { logical_letter logical.RollbackPrepared ≡ 114 }
    ensures stream_prepare { logical_letter logical.StreamPrepare ≡ 112 }
{}
