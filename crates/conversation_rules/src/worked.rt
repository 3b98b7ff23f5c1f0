//! Worked conversations: what is found in them. Each law is the contract of a function that does nothing.

ghost use Rattle.std.specs.Prelude.{◌≡◌, ◌∷◌, [], codes};
ghost use Rattle.json.specs.Json.{null, number, string, array, no_items};
ghost use Rattle.conversation_reading.specs.Rows.{id, message, method, outcome, failure};
ghost use Rattle.conversation_rules.specs.Rows.{request, old_request, no_method, null_request, null_call, request_without_params, text_request, deep_request, two_ids, answer, null_answer, error_answer, notification, call, lsp_cancel, mcp_cancel, mcp_cancel_with, array_of, says, babbles, ends, told, tells};
ghost use Rattle.content_streams.specs.declared.ending.HowEnded.TheVariants.{Closed, ReadFailed};
ghost use Rattle.conversation_rules.specs.declared.finding.Rule.TheVariants as rules;
ghost use Rattle.conversation_rules.specs.declared.level.Level.TheVariants.{Must, Should, Note};
ghost use Rattle.conversation_rules.specs.declared.protocol.Protocol.TheVariants.{JsonRpc, Lsp, Mcp, Mcp20250618, Mcp20250326, Mcp20241105};
ghost use Rattle.conversation_rules.specs.declared.side.Side.TheVariants.{Client, Server};

/// Each request is answered once (JSON-RPC 2.0, section 5).
pub fn answers_that_are_owed()
    ensures kept { told JsonRpc (says Client (request (codes "7")) ∷ says Server (answer (codes "7")) ∷ ends Server Closed ∷ [])
        ≡ [] }
    ensures other_side { told JsonRpc (says Client (request (codes "1")) ∷ says Server (request (codes "1"))
        ∷ says Client (answer (codes "1")) ∷ says Server (answer (codes "1")) ∷ []) ≡ [] }
    ensures by_value { told JsonRpc (says Client (request (codes "0")) ∷ says Client (request (codes "-1"))
        ∷ says Server (answer (codes "-10e-1")) ∷ says Server (answer (codes "0.0")) ∷ []) ≡ [] }
    ensures twice { told JsonRpc (says Client (request (codes "7")) ∷ says Server (answer (codes "7")) ∷ says Server (answer (codes "7")) ∷ [])
        ≡ tells Server rules.NotOwed Must 2 0 ∷ [] }
    ensures never { told JsonRpc (says Client (request (codes "7")) ∷ says Server (answer (codes "8")) ∷ ends Server Closed ∷ [])
        ≡ tells Server rules.NotOwed Must 1 0 ∷ tells Server rules.Unanswered Must 1 0 ∷ [] }
    ensures before { told JsonRpc (says Server (answer (codes "7")) ∷ says Client (request (codes "7")) ∷ [])
        ≡ tells Server rules.NotOwed Must 1 0 ∷ [] }
    ensures another_type { told JsonRpc (says Client (request (codes "7")) ∷ says Server (message ((codes "id", string (codes "7")) ∷ outcome ∷ [])) ∷ [])
        ≡ tells Server rules.NotOwed Must 1 0 ∷ [] }
    ensures notified { told JsonRpc (says Client (notification (codes "a")) ∷ says Server (null_answer (codes "5")) ∷ [])
        ≡ tells Server rules.NotOwed Must 1 0 ∷ [] }
    ensures null_for_a_request { told JsonRpc (says Client (text_request (codes "7")) ∷ says Server (null_answer (codes "5")) ∷ [])
        ≡ tells Server rules.NotOwed Must 1 0 ∷ [] }
{}

/// What needn't be answered may be, once (JSON-RPC 2.0, section 5).
pub fn answers_that_may_come()
    ensures invalid_by_its_id { told JsonRpc (says Client (old_request (codes "7")) ∷ says Server (error_answer (codes "7") (codes "-32600")) ∷ [])
        ≡ tells Client rules.Version Must 1 0 ∷ [] }
    ensures invalid_by_null { told JsonRpc (says Client (number (codes "1")) ∷ says Server (null_answer (codes "-32600")) ∷ says Server (null_answer (codes "-32600")) ∷ [])
        ≡ tells Client rules.Object Must 1 0 ∷ tells Server rules.NotOwed Must 2 0 ∷ [] }
    ensures null_params { told JsonRpc (says Client (request_without_params (codes "7")) ∷ says Server (answer (codes "7")) ∷ ends Server Closed ∷ [])
        ≡ tells Client rules.Params Must 1 0 ∷ [] }
    ensures unreadable { told JsonRpc (babbles Client ∷ says Server (null_answer (codes "-32700")) ∷ says Server (null_answer (codes "-32700")) ∷ [])
        ≡ tells Client rules.NotJson Must 1 0 ∷ tells Server rules.NotOwed Must 2 0 ∷ [] }
    ensures may_be_read { told JsonRpc (babbles Client ∷ says Server (answer (codes "7")) ∷ says Server (answer (codes "7")) ∷ [])
        ≡ tells Client rules.NotJson Must 1 0 ∷ tells Server rules.NotOwed Note 1 0 ∷ tells Server rules.NotOwed Must 2 0 ∷ [] }
    ensures null_id { told JsonRpc (says Client null_request ∷ says Server (null_answer (codes "5")) ∷ ends Server Closed ∷ [])
        ≡ tells Client rules.IdNull Should 1 0 ∷ [] }
    ensures null_id_and_params { told JsonRpc (says Client null_call ∷ says Server (null_answer (codes "-32700")) ∷ [])
        ≡ tells Client rules.Params Must 1 0 ∷ [] }
    ensures null_id_by_any_code { told JsonRpc (says Client (number (codes "1")) ∷ says Client null_request
        ∷ says Server (null_answer (codes "-32700")) ∷ ends Server Closed ∷ [])
        ≡ tells Client rules.Object Must 1 0 ∷ tells Client rules.IdNull Should 2 0 ∷ [] }
    ensures both { told JsonRpc (says Client (request (codes "7")) ∷ says Server (message (id (codes "7") ∷ outcome ∷ (codes "error", null) ∷ [])) ∷ ends Server Closed ∷ [])
        ≡ tells Server rules.Outcome Must 1 0 ∷ [] }
{}

/// A request with an id isn't answered as unreadable. What is no request may be.
pub fn good_json()
    ensures invalid { told JsonRpc (says Client (no_method (codes "7")) ∷ says Server (null_answer (codes "-32700")) ∷ [])
        ≡ tells Client rules.Method Must 1 0 ∷ [] }
    ensures request { told JsonRpc (says Client (text_request (codes "7")) ∷ says Server (null_answer (codes "-32700")) ∷ [])
        ≡ tells Server rules.NotOwed Must 1 0 ∷ [] }
{}

/// But a batch may be refused whole, and a request that nests deep: each once (JSON-RPC 2.0, section 6; RFC 8259, section 9).
pub fn contents_that_are_refused()
    ensures deep { told JsonRpc (says Client (deep_request 31 (codes "7")) ∷ says Server (null_answer (codes "5")) ∷ says Server (null_answer (codes "5"))
        ∷ ends Server Closed ∷ [])
        ≡ tells Server rules.NotOwed Note 1 0 ∷ tells Server rules.NotOwed Must 2 0 ∷ tells Server rules.Unanswered Note 1 0 ∷ [] }
    ensures deep_as_unreadable { told JsonRpc (says Client (deep_request 31 (codes "7")) ∷ says Server (null_answer (codes "-32700"))
        ∷ says Server (null_answer (codes "-32700")) ∷ ends Server Closed ∷ [])
        ≡ tells Server rules.NotOwed Note 1 0 ∷ tells Server rules.NotOwed Must 2 0 ∷ tells Server rules.Unanswered Note 1 0 ∷ [] }
    ensures less_deep { told JsonRpc (says Client (deep_request 30 (codes "7")) ∷ says Server (null_answer (codes "-32700")) ∷ ends Server Closed ∷ [])
        ≡ tells Server rules.NotOwed Must 1 0 ∷ tells Server rules.Unanswered Must 1 0 ∷ [] }
    ensures nothing { told JsonRpc (says Server (null_answer (codes "5")) ∷ says Client (array_of (request (codes "7") ∷ [])) ∷ ends Server Closed ∷ [])
        ≡ tells Server rules.NotOwed Must 1 0 ∷ tells Server rules.Unanswered Must 1 1 ∷ [] }
    ensures by_a_result { told JsonRpc (says Client (array_of (request (codes "7") ∷ []))
        ∷ says Server (message ((codes "id", null) ∷ outcome ∷ [])) ∷ ends Server Closed ∷ [])
        ≡ tells Server rules.NotOwed Note 1 0 ∷ tells Server rules.Unanswered Note 1 1 ∷ [] }
    ensures batch { told JsonRpc (says Client (array_of (request (codes "7") ∷ request (codes "8") ∷ []))
        ∷ says Server (null_answer (codes "-32600")) ∷ says Server (null_answer (codes "5")) ∷ ends Server Closed ∷ [])
        ≡ tells Server rules.NotOwed Note 1 0 ∷ tells Server rules.NotOwed Must 2 0
        ∷ tells Server rules.Unanswered Note 1 1 ∷ tells Server rules.Unanswered Note 1 2 ∷ [] }
    ensures batch_among_others { told JsonRpc (says Client (request (codes "6")) ∷ says Client (array_of (request (codes "7") ∷ []))
        ∷ says Server (null_answer (codes "5")) ∷ says Server (answer (codes "6")) ∷ ends Server Closed ∷ [])
        ≡ tells Server rules.NotOwed Note 1 0 ∷ tells Server rules.Unanswered Note 2 1 ∷ [] }
    ensures batch_behind_a_request { told JsonRpc (says Client (text_request (codes "6")) ∷ says Client (array_of (request (codes "7") ∷ []))
        ∷ says Server (null_answer (codes "5")) ∷ ends Server Closed ∷ [])
        ≡ tells Server rules.NotOwed Note 1 0 ∷ tells Server rules.Unanswered Must 1 0 ∷ tells Server rules.Unanswered Note 2 1 ∷ [] }
    ensures oldest { told JsonRpc (says Client (array_of (request (codes "7") ∷ [])) ∷ says Client (array_of (request (codes "8") ∷ []))
        ∷ says Server (null_answer (codes "5")) ∷ ends Server Closed ∷ []) ≡ tells Server rules.NotOwed Note 1 0
        ∷ tells Server rules.Unanswered Note 1 1 ∷ tells Server rules.Unanswered Must 2 1 ∷ [] }
    ensures answered_all_the_same { told JsonRpc (says Client (array_of (request (codes "7") ∷ [])) ∷ says Server (null_answer (codes "5"))
        ∷ says Server (array_of (answer (codes "7") ∷ [])) ∷ says Client (array_of (request (codes "8") ∷ [])) ∷ ends Server Closed ∷ [])
        ≡ tells Server rules.NotOwed Note 1 0 ∷ tells Server rules.Unanswered Must 2 1 ∷ [] }
    ensures unreadable_too { told JsonRpc (says Client (array_of (request (codes "7") ∷ [])) ∷ babbles Client ∷ says Server (null_answer (codes "5"))
        ∷ says Server (null_answer (codes "5")) ∷ ends Server Closed ∷ [])
        ≡ tells Client rules.NotJson Must 2 0 ∷ tells Server rules.NotOwed Note 1 0 ∷ tells Server rules.NotOwed Note 2 0
        ∷ tells Server rules.Unanswered Note 1 1 ∷ [] }
    ensures place_of_another { told JsonRpc (says Client null_request ∷ says Client (array_of (request (codes "7") ∷ []))
        ∷ says Server (null_answer (codes "-32600")) ∷ says Server (message ((codes "id", null) ∷ outcome ∷ [])) ∷ [])
        ≡ tells Client rules.IdNull Should 1 0 ∷ tells Server rules.NotOwed Note 2 0 ∷ [] }
    ensures silent_array { told JsonRpc (says Client (array_of (notification (codes "a") ∷ [])) ∷ says Server (null_answer (codes "5"))
        ∷ says Server (null_answer (codes "5")) ∷ [])
        ≡ tells Server rules.NotOwed Note 1 0 ∷ tells Server rules.NotOwed Must 2 0 ∷ [] }
    ensures array_of_answers { told JsonRpc (says Client (request (codes "7")) ∷ says Server (array_of (answer (codes "7") ∷ []))
        ∷ says Client (null_answer (codes "5")) ∷ says Client (null_answer (codes "5")) ∷ [])
        ≡ tells Server rules.NotAsArray Should 1 0 ∷ tells Client rules.NotOwed Note 2 0 ∷ tells Client rules.NotOwed Must 3 0 ∷ [] }
{}

/// The answers of a batch are one array (JSON-RPC 2.0, section 6).
pub fn answers_in_arrays()
    ensures kept { told JsonRpc (says Client (array_of (request (codes "7") ∷ request (codes "8") ∷ []))
        ∷ says Server (array_of (answer (codes "8") ∷ answer (codes "7") ∷ [])) ∷ ends Server Closed ∷ []) ≡ [] }
    ensures invalid_left_out { told JsonRpc (says Client (array_of (number (codes "1") ∷ request (codes "5") ∷ []))
        ∷ says Client (array_of []) ∷ says Server (array_of (answer (codes "5") ∷ [])) ∷ ends Server Closed ∷ [])
        ≡ tells Client rules.Object Must 1 1 ∷ tells Client rules.EmptyArray Must 2 0 ∷ [] }
    ensures empty_first { told JsonRpc (says Client (array_of []) ∷ says Client (array_of (number (codes "1") ∷ request (codes "5") ∷ []))
        ∷ says Server (array_of (answer (codes "5") ∷ [])) ∷ says Server (null_answer (codes "-32600")) ∷ ends Server Closed ∷ [])
        ≡ tells Client rules.EmptyArray Must 1 0 ∷ tells Client rules.Object Must 2 1 ∷ [] }
    ensures second_first { told JsonRpc (says Client (array_of (request (codes "7") ∷ request (codes "8") ∷ []))
        ∷ says Client (array_of (request (codes "7") ∷ request (codes "9") ∷ []))
        ∷ says Server (array_of (answer (codes "7") ∷ answer (codes "9") ∷ []))
        ∷ says Server (array_of (answer (codes "7") ∷ answer (codes "8") ∷ [])) ∷ ends Server Closed ∷ []) ≡ [] }
    ensures one_by_one { told JsonRpc (says Client (array_of (request (codes "7") ∷ request (codes "8") ∷ []))
        ∷ says Server (answer (codes "7")) ∷ says Server (answer (codes "8")) ∷ ends Server Closed ∷ [])
        ≡ tells Server rules.NotAsArray Should 1 0 ∷ tells Server rules.NotAsArray Should 2 0 ∷ [] }
    ensures other_ids { told JsonRpc (says Client (array_of (request (codes "7") ∷ request (codes "8") ∷ []))
        ∷ says Server (array_of (answer (codes "5") ∷ answer (codes "6") ∷ [])) ∷ [])
        ≡ tells Server rules.NotOwed Must 1 1 ∷ tells Server rules.NotOwed Must 1 2 ∷ [] }
    ensures one_is_left { told JsonRpc (says Client (array_of (request (codes "7") ∷ request (codes "8") ∷ []))
        ∷ says Server (array_of (answer (codes "7") ∷ [])) ∷ ends Server Closed ∷ [])
        ≡ tells Server rules.NotAsArray Should 1 0 ∷ tells Server rules.Unanswered Must 1 2 ∷ [] }
    ensures single_in_an_array { told JsonRpc (says Client (request (codes "7")) ∷ says Server (array_of (answer (codes "7") ∷ [])) ∷ ends Server Closed ∷ [])
        ≡ tells Server rules.NotAsArray Should 1 0 ∷ [] }
    ensures others_among { told JsonRpc (says Client (array_of (request (codes "7") ∷ []))
        ∷ says Server (array_of (answer (codes "7") ∷ notification (codes "a") ∷ [])) ∷ [])
        ≡ tells Server rules.NotAsArray Should 1 0 ∷ [] }
    ensures no_batches { told Mcp (says Client (array_of (request (codes "7") ∷ [])) ∷ [])
        ≡ tells Client rules.Batch Must 1 0 ∷ [] }
    ensures batches { told Mcp20250326 (says Client (array_of (request (codes "7") ∷ [])) ∷ []) ≡ [] }
    ensures batches_before { told Mcp20241105 (says Client (array_of (request (codes "7") ∷ [])) ∷ [])
        ≡ tells Client rules.Batch Note 1 0 ∷ [] }
    ensures no_batches_before { told Mcp20250618 (says Client (array_of (request (codes "7") ∷ [])) ∷ [])
        ≡ tells Client rules.Batch Must 1 0 ∷ [] }
    ensures lsp_batches { told Lsp (says Client (array_of (request (codes "7") ∷ [])) ∷ [])
        ≡ tells Client rules.Batch Note 1 0 ∷ [] }
    ensures refused { told Mcp (says Client (array_of (request (codes "7") ∷ request (codes "8") ∷ []))
        ∷ says Server (null_answer (codes "-32600")) ∷ ends Server Closed ∷ [])
        ≡ tells Client rules.Batch Must 1 0 ∷ tells Server rules.NotOwed Note 1 0
        ∷ tells Server rules.Unanswered Note 1 1 ∷ tells Server rules.Unanswered Note 1 2 ∷ [] }
{}

/// Ids of requests (JSON-RPC 2.0, section 4; LSP 3.17, Request Message; MCP, messages).
pub fn ids_of_requests()
    ensures plain { told JsonRpc (says Client (request (codes "0")) ∷ says Client (request (codes "-1")) ∷ []) ≡ [] }
    ensures form { told JsonRpc (says Client (request (codes "1.0")) ∷ []) ≡ tells Client rules.IdForm Note 1 0 ∷ [] }
    ensures beyond { told JsonRpc (says Client (request (codes "18446744073709551616")) ∷ [])
        ≡ tells Client rules.IdForm Note 1 0 ∷ [] }
    ensures within { told JsonRpc (says Client (request (codes "18446744073709551615")) ∷ []) ≡ [] }
    ensures fraction { told JsonRpc (says Client (request (codes "1.5")) ∷ []) ≡ tells Client rules.IdFraction Should 1 0 ∷ [] }
    ensures fraction_in_mcp { told Mcp (says Client (request (codes "1.5")) ∷ []) ≡ tells Client rules.IdFraction Must 1 0 ∷ [] }
    ensures fraction_in_lsp { told Lsp (says Client (request (codes "1.5")) ∷ []) ≡ tells Client rules.IdFraction Must 1 0 ∷ [] }
    ensures form_in_lsp { told Lsp (says Client (request (codes "1.0")) ∷ []) ≡ tells Client rules.IdForm Note 1 0 ∷ [] }
    ensures null_in_lsp { told Lsp (says Client null_request ∷ ends Server Closed ∷ []) ≡ tells Client rules.IdNull Must 1 0 ∷ [] }
    ensures null_in_mcp { told Mcp (says Client null_request ∷ ends Server Closed ∷ []) ≡ tells Client rules.IdNull Must 1 0 ∷ [] }
    ensures open_again { told JsonRpc (says Client (request (codes "7")) ∷ says Client (request (codes "7.0")) ∷ [])
        ≡ tells Client rules.IdForm Note 2 0 ∷ tells Client rules.IdAgain Note 2 0 ∷ [] }
    ensures closed_again { told JsonRpc (says Client (request (codes "7")) ∷ says Server (answer (codes "7")) ∷ says Client (request (codes "7")) ∷ [])
        ≡ [] }
    ensures used_again { told Mcp (says Client (request (codes "7")) ∷ says Server (answer (codes "7")) ∷ says Client (request (codes "7")) ∷ [])
        ≡ tells Client rules.IdAgain Must 2 0 ∷ [] }
{}

/// A request that has a result or an error too (JSON-RPC 2.0, sections 4 and 5).
pub fn requests_that_are_answers()
    ensures result { told JsonRpc (says Client (message (method ∷ id (codes "7") ∷ outcome ∷ [])) ∷ says Server (answer (codes "7")) ∷ ends Server Closed ∷ [])
        ≡ tells Client rules.BothKinds Must 1 0 ∷ [] }
    ensures error { told JsonRpc (says Client (message (method ∷ id (codes "7") ∷ (codes "error", null) ∷ [])) ∷ ends Server Closed ∷ [])
        ≡ tells Client rules.BothKinds Must 1 0 ∷ tells Server rules.Unanswered Must 1 0 ∷ [] }
    ensures without_id { told JsonRpc (says Client (message (method ∷ outcome ∷ [])) ∷ []) ≡ [] }
    ensures invalid { told JsonRpc (says Client (message ((codes "method", null) ∷ id (codes "7") ∷ outcome ∷ [])) ∷ ends Server Closed ∷ [])
        ≡ tells Client rules.Method Must 1 0 ∷ tells Client rules.BothKinds Must 1 0 ∷ [] }
{}

/// Members that stand twice (RFC 8259, section 4): either may be answered, and once.
pub fn members_that_stand_twice()
    ensures last_id { told JsonRpc (says Client two_ids ∷ says Server (answer (codes "8")) ∷ ends Server Closed ∷ [])
        ≡ tells Client rules.Twice Should 1 0 ∷ [] }
    ensures first_id { told JsonRpc (says Client two_ids ∷ says Server (answer (codes "7")) ∷ ends Server Closed ∷ [])
        ≡ tells Client rules.Twice Should 1 0 ∷ [] }
    ensures both_ids { told JsonRpc (says Client two_ids ∷ says Server (answer (codes "7")) ∷ says Server (answer (codes "8")) ∷ [])
        ≡ tells Client rules.Twice Should 1 0 ∷ tells Server rules.NotOwed Must 2 0 ∷ [] }
    ensures left { told JsonRpc (says Client two_ids ∷ ends Server Closed ∷ []) ≡ tells Client rules.Twice Should 1 0 ∷ [] }
    ensures refused { told JsonRpc (says Client two_ids ∷ says Server (null_answer (codes "-32700")) ∷ says Server (null_answer (codes "-32700")) ∷ [])
        ≡ tells Client rules.Twice Should 1 0 ∷ tells Server rules.NotOwed Note 1 0 ∷ tells Server rules.NotOwed Must 2 0 ∷ [] }
    ensures notification { told JsonRpc (says Client (message (method ∷ method ∷ [])) ∷ says Server (null_answer (codes "-32600")) ∷ [])
        ≡ tells Client rules.Twice Should 1 0 ∷ tells Server rules.NotOwed Note 1 0 ∷ [] }
    ensures of_another { told JsonRpc (says Client two_ids ∷ says Client (request (codes "8")) ∷ says Server (answer (codes "8"))
        ∷ says Server (answer (codes "7")) ∷ ends Server Closed ∷ []) ≡ tells Client rules.Twice Should 1 0 ∷ [] }
    ensures in_a_batch { told JsonRpc (says Client (array_of (two_ids ∷ request (codes "9") ∷ []))
        ∷ says Server (array_of (answer (codes "7") ∷ answer (codes "9") ∷ [])) ∷ ends Server Closed ∷ []) ≡ tells Client rules.Twice Should 1 1 ∷ [] }
    ensures answer_of_two { told JsonRpc (says Client (request (codes "7")) ∷ says Server (message (id (codes "7") ∷ outcome ∷ outcome ∷ [])) ∷ ends Server Closed ∷ [])
        ≡ tells Server rules.Twice Should 1 0 ∷ [] }
    ensures answer_to_nothing { told JsonRpc (says Server (message (id (codes "7") ∷ outcome ∷ outcome ∷ [])) ∷ []) ≡ tells Server rules.Twice Should 1 0 ∷ [] }
    ensures exit { told Lsp (says Client (request (codes "7")) ∷ says Client (message ((codes "method", string (codes "exit")) ∷ method ∷ [])) ∷ ends Server Closed ∷ [])
        ≡ tells Client rules.Twice Should 2 0 ∷ [] }
{}

/// Names and codes (JSON-RPC 2.0, sections 4 and 5.1; LSP 3.17, ErrorCodes).
pub fn names_and_codes()
    ensures kept_name { told JsonRpc (says Client (notification (codes "rpc.")) ∷ []) ≡ tells Client rules.RpcName Note 1 0 ∷ [] }
    ensures other_name { told JsonRpc (says Client (notification (codes "rpc")) ∷ []) ≡ [] }
    ensures undefined { told JsonRpc (says Client (request (codes "7")) ∷ says Server (error_answer (codes "7") (codes "-32500")) ∷ [])
        ≡ tells Server rules.Code Must 1 0 ∷ [] }
    ensures last_reserved { told JsonRpc (says Client (request (codes "7")) ∷ says Server (error_answer (codes "7") (codes "-32768")) ∷ [])
        ≡ tells Server rules.Code Must 1 0 ∷ [] }
    ensures not_reserved { told JsonRpc (says Client (request (codes "7")) ∷ says Server (error_answer (codes "7") (codes "-32769")) ∷ []) ≡ [] }
    ensures defined { told JsonRpc (says Client (request (codes "7")) ∷ says Server (error_answer (codes "7") (codes "-3.2603e4")) ∷ []) ≡ [] }
    ensures lsp_only { told Lsp (says Client (request (codes "7")) ∷ says Server (error_answer (codes "7") (codes "-32899")) ∷ [])
        ≡ tells Server rules.Code Must 1 0 ∷ [] }
{}

/// Cancels (LSP 3.17 and MCP, cancellation).
pub fn cancels()
    ensures cancelled { told Lsp (says Client (request (codes "7")) ∷ says Client (lsp_cancel (number (codes "7")))
        ∷ says Server (error_answer (codes "7") (codes "-32800")) ∷ ends Server Closed ∷ []) ≡ [] }
    ensures not_cancelled { told Lsp (says Client (request (codes "7")) ∷ says Server (error_answer (codes "7") (codes "-32800")) ∷ [])
        ≡ tells Server rules.CancelledCode Should 1 0 ∷ [] }
    ensures cancelled_late { told Lsp (says Client (request (codes "7")) ∷ says Server (error_answer (codes "7") (codes "-32800"))
        ∷ says Client (lsp_cancel (number (codes "7"))) ∷ []) ≡ tells Server rules.CancelledCode Should 1 0 ∷ [] }
    ensures owed_all_the_same { told Lsp (says Client (request (codes "7")) ∷ says Client (lsp_cancel (number (codes "7"))) ∷ ends Server Closed ∷ [])
        ≡ tells Server rules.Unanswered Must 1 0 ∷ [] }
    ensures no_target { told Lsp (says Client (lsp_cancel null) ∷ []) ≡ tells Client rules.CancelParams Must 1 0 ∷ [] }
    ensures unknown { told Lsp (says Client (request (codes "7")) ∷ says Client (lsp_cancel (string (codes "7"))) ∷ [])
        ≡ tells Client rules.CancelUnknown Note 2 0 ∷ [] }
    ensures unknown_in_mcp { told Mcp (says Client (mcp_cancel (number (codes "7"))) ∷ []) ≡ tells Client rules.CancelUnknown Must 1 0 ∷ [] }
    ensures initialize { told Mcp (says Client (call (codes "initialize") (codes "0")) ∷ says Client (mcp_cancel (number (codes "0"))) ∷ [])
        ≡ tells Client rules.CancelInitialize Must 2 0 ∷ [] }
    ensures owed_no_longer { told Mcp (says Client (request (codes "7")) ∷ says Client (mcp_cancel (number (codes "7"))) ∷ ends Server Closed ∷ []) ≡ [] }
    ensures used_again { told Mcp (says Client (text_request (codes "7")) ∷ says Client (mcp_cancel (string (codes "7"))) ∷ says Client (text_request (codes "7"))
        ∷ says Server (message ((codes "id", string (codes "7")) ∷ outcome ∷ [])) ∷ ends Server Closed ∷ []) ≡ tells Client rules.IdAgain Must 3 0 ∷ [] }
    ensures after_cancel { told Mcp (says Client (request (codes "7")) ∷ says Client (mcp_cancel (number (codes "7"))) ∷ says Server (answer (codes "7")) ∷ [])
        ≡ tells Server rules.AfterCancel Note 1 0 ∷ [] }
    ensures none_in_jsonrpc { told JsonRpc (says Client (lsp_cancel null) ∷ []) ≡ [] }
{}

/// Params and results that are no objects (MCP, messages), which JSON-RPC allows.
pub fn params_and_results_of_mcp()
    ensures kept { told Mcp (says Client (request (codes "7")) ∷ says Server (answer (codes "7")) ∷ []) ≡ [] }
    ensures failed { told Mcp (says Client (request (codes "7")) ∷ says Server (error_answer (codes "7") (codes "5")) ∷ []) ≡ [] }
    ensures params { told Mcp (says Client (deep_request 1 (codes "7")) ∷ []) ≡ tells Client rules.ParamsObject Must 1 0 ∷ [] }
    ensures of_a_notification { told Mcp20241105 (says Server (message (method ∷ (codes "params", array no_items) ∷ [])) ∷ [])
        ≡ tells Server rules.ParamsObject Must 1 0 ∷ [] }
    ensures no_params { told Mcp (says Client (message (method ∷ id (codes "7") ∷ (codes "params", null) ∷ [])) ∷ [])
        ≡ tells Client rules.Params Must 1 0 ∷ [] }
    ensures of_a_cancel { told Mcp (says Client (message ((codes "method", string (codes "notifications/cancelled")) ∷ (codes "params", array no_items) ∷ [])) ∷ [])
        ≡ tells Client rules.CancelParams Must 1 0 ∷ [] }
    ensures result { told Mcp (says Client (request (codes "7")) ∷ says Server (message (id (codes "7") ∷ (codes "result", null) ∷ [])) ∷ [])
        ≡ tells Server rules.ResultObject Must 1 0 ∷ [] }
    ensures in_an_array { told Mcp20250326 (says Client (array_of (request (codes "7") ∷ []))
        ∷ says Server (array_of (message (id (codes "7") ∷ (codes "result", number (codes "1")) ∷ []) ∷ [])) ∷ []) ≡ tells Server rules.ResultObject Must 1 1 ∷ [] }
    ensures other_rules { told Lsp (says Client (deep_request 1 (codes "7")) ∷ says Client (request (codes "7"))
        ∷ says Server (message (id (codes "7") ∷ (codes "result", null) ∷ [])) ∷ []) ≡ [] }
{}

/// Behind a cancel an array may have less than its batch expects. Where it has, it is guessed for which batch it is, and what is
/// told of what is owed is a note from then on (MCP, cancellation).
pub fn arrays_behind_a_cancel()
    ensures whole { told Mcp20250326 (says Client (array_of (request (codes "7") ∷ request (codes "8") ∷ [])) ∷ says Client (mcp_cancel (number (codes "7")))
        ∷ says Server (array_of (answer (codes "8") ∷ answer (codes "7") ∷ [])) ∷ says Server (answer (codes "8")) ∷ [])
        ≡ tells Server rules.AfterCancel Note 1 2 ∷ tells Server rules.NotOwed Must 2 0 ∷ [] }
    ensures less { told Mcp20250326 (says Client (array_of (request (codes "7") ∷ request (codes "8") ∷ [])) ∷ says Client (mcp_cancel (number (codes "7")))
        ∷ says Server (array_of (answer (codes "8") ∷ [])) ∷ says Server (answer (codes "8")) ∷ []) ≡ tells Server rules.NotOwed Note 2 0 ∷ [] }
    ensures other { told Mcp20250326 (says Client (array_of (request (codes "7") ∷ [])) ∷ says Client (mcp_cancel (number (codes "7")))
        ∷ says Server (array_of (answer (codes "8") ∷ [])) ∷ []) ≡ tells Server rules.NotOwed Note 1 1 ∷ [] }
    ensures unanswered { told Mcp20250326 (says Client (array_of (request (codes "7") ∷ request (codes "8") ∷ [])) ∷ says Client (mcp_cancel (number (codes "7")))
        ∷ says Server (array_of (answer (codes "9") ∷ [])) ∷ ends Server Closed ∷ [])
        ≡ tells Server rules.NotOwed Note 1 1 ∷ tells Server rules.Unanswered Note 1 2 ∷ [] }
    ensures before { told Mcp20250326 (says Client (array_of (request (codes "7") ∷ request (codes "8") ∷ []))
        ∷ says Server (array_of (answer (codes "9") ∷ [])) ∷ []) ≡ tells Server rules.NotOwed Must 1 1 ∷ [] }
    ensures no_batch { told Mcp20250326 (says Client (request (codes "7")) ∷ says Client (mcp_cancel (number (codes "7")))
        ∷ says Server (array_of (answer (codes "9") ∷ [])) ∷ []) ≡ tells Server rules.NotOwed Must 1 1 ∷ [] }
    ensures of_lsp { told Lsp (says Client (array_of (request (codes "7") ∷ request (codes "8") ∷ [])) ∷ says Client (lsp_cancel (number (codes "7")))
        ∷ says Server (array_of (answer (codes "9") ∷ [])) ∷ []) ≡ tells Client rules.Batch Note 1 0 ∷ tells Server rules.NotOwed Must 1 1 ∷ [] }
{}

/// Errors without an id, and cancels without that of a request (MCP 2025-11-25, messages and cancellation).
pub fn ids_that_are_left_out()
    ensures error { told Mcp (says Server (message (failure (codes "-32700") ∷ [])) ∷ []) ≡ [] }
    ensures error_before { told Mcp20250618 (says Server (message (failure (codes "-32700") ∷ [])) ∷ []) ≡ tells Server rules.Id Must 1 0 ∷ [] }
    ensures error_for_a_batch { told Mcp (says Client (array_of (request (codes "7") ∷ [])) ∷ says Server (message (failure (codes "-32600") ∷ []))
        ∷ ends Server Closed ∷ []) ≡ tells Client rules.Batch Must 1 0 ∷ tells Server rules.Unanswered Note 1 1 ∷ [] }
    ensures error_for_a_batch_before { told Mcp20250618 (says Client (array_of (request (codes "7") ∷ [])) ∷ says Server (message (failure (codes "-32600") ∷ []))
        ∷ ends Server Closed ∷ []) ≡ tells Client rules.Batch Must 1 0 ∷ tells Server rules.Id Must 1 0 ∷ tells Server rules.Unanswered Must 1 1 ∷ [] }
    ensures bad_error { told Mcp (says Server (message (failure (codes "1.5") ∷ [])) ∷ []) ≡ tells Server rules.Error Must 1 0 ∷ [] }
    ensures bad_id { told Mcp (says Server (message ((codes "id", array no_items) ∷ failure (codes "-32700") ∷ [])) ∷ [])
        ≡ tells Server rules.Id Must 1 0 ∷ [] }
    ensures result { told Mcp (says Server (message (outcome ∷ [])) ∷ []) ≡ tells Server rules.Id Must 1 0 ∷ [] }
    ensures both { told Mcp (says Server (message (outcome ∷ failure (codes "-32700") ∷ [])) ∷ [])
        ≡ tells Server rules.Id Must 1 0 ∷ tells Server rules.Outcome Must 1 0 ∷ [] }
    ensures cancel { told Mcp (says Client (mcp_cancel_with []) ∷ []) ≡ tells Client rules.CancelParams Note 1 0 ∷ [] }
    ensures cancel_without_params { told Mcp (says Client (notification (codes "notifications/cancelled")) ∷ [])
        ≡ tells Client rules.CancelParams Note 1 0 ∷ [] }
    ensures cancel_before { told Mcp20250618 (says Client (mcp_cancel_with []) ∷ []) ≡ tells Client rules.CancelParams Must 1 0 ∷ [] }
    ensures cancel_of_null { told Mcp (says Client (mcp_cancel null) ∷ []) ≡ tells Client rules.CancelParams Must 1 0 ∷ [] }
    ensures bad_reason { told Mcp (says Client (mcp_cancel_with ((codes "reason", null) ∷ [])) ∷ [])
        ≡ tells Client rules.CancelParams Must 1 0 ∷ [] }
{}

/// Ends (JSON-RPC 2.0, section 5; LSP 3.17, exit; MCP, lifecycle).
pub fn ends_of_sides()
    ensures unanswered { told JsonRpc (says Client (request (codes "7")) ∷ ends Server Closed ∷ []) ≡ tells Server rules.Unanswered Must 1 0 ∷ [] }
    ensures notified { told JsonRpc (says Client (notification (codes "a")) ∷ ends Server Closed ∷ []) ≡ [] }
    ensures read_failed { told JsonRpc (says Client (request (codes "7")) ∷ ends Server ReadFailed ∷ []) ≡ tells Server rules.Unanswered Note 1 0 ∷ [] }
    ensures asker_first { told JsonRpc (says Client (request (codes "7")) ∷ ends Client Closed ∷ ends Server Closed ∷ []) ≡ [] }
    ensures exit { told Lsp (says Client (request (codes "7")) ∷ says Client (notification (codes "exit")) ∷ ends Server Closed ∷ []) ≡ [] }
    ensures exit_is_lsp { told Mcp (says Client (request (codes "7")) ∷ says Client (notification (codes "exit")) ∷ ends Server Closed ∷ [])
        ≡ tells Server rules.Unanswered Must 1 0 ∷ [] }
    ensures client_ends { told JsonRpc (says Server (request (codes "7")) ∷ ends Client Closed ∷ []) ≡ tells Client rules.Unanswered Must 1 0 ∷ [] }
    ensures client_ends_without_exit { told Lsp (says Server (request (codes "7")) ∷ ends Client Closed ∷ []) ≡ tells Client rules.Unanswered Must 1 0 ∷ [] }
    ensures client_exits { told Lsp (says Server (request (codes "7")) ∷ says Client (notification (codes "exit")) ∷ ends Client Closed ∷ []) ≡ [] }
    ensures client_ends_mcp { told Mcp (says Server (request (codes "7")) ∷ ends Client Closed ∷ []) ≡ [] }
    ensures server_has_no_exit { told Lsp (says Client (request (codes "7")) ∷ says Server (notification (codes "exit")) ∷ ends Server Closed ∷ [])
        ≡ tells Server rules.Unanswered Must 1 0 ∷ [] }
    ensures server_ends_mcp { told Mcp (says Client (request (codes "7")) ∷ ends Server Closed ∷ []) ≡ tells Server rules.Unanswered Must 1 0 ∷ [] }
    ensures may_be_there { told JsonRpc (says Client (request (codes "7")) ∷ babbles Server ∷ says Client (request (codes "8")) ∷ ends Server Closed ∷ [])
        ≡ tells Server rules.NotJson Must 1 0 ∷ tells Server rules.Unanswered Note 1 0 ∷ tells Server rules.Unanswered Must 2 0 ∷ [] }
{}
